// The settings of the filter, what is derived from them, and which of them are refused.
#![tactic(auto)]

pub mod axes; // axes.rt: a set of axes
pub mod config; // config.rt: what is derived, and the tests
pub mod limit; // limit.rt: the limit of a sensor, squared or in degrees

pub use axes::Axes;
pub use config::Config;
pub use limit::Limit;

// The conventions: which axes of the Earth x, y and z are. A number and no enum: settings that are handed in may hold any, and are
// refused with 4 (`known_convention`, theorem ExactlyWhen), and where gravity and west lie is stated for any (half_gravity_of, half_west_of).
pub const NWU: u8 = 0;

pub const ENU: u8 = 1;

pub const NED: u8 = 2;

// Each of the two limits is the Rust's angle, or the squared limit that it stands for.
#[derive(Clone, Copy, Debug, PartialEq)]
pub struct Settings {
    pub sample_rate: f32,
    pub convention: u8,
    pub gain: f32,
    pub gyroscope_range: f32,
    pub acceleration_rejection: Limit,
    pub magnetic_rejection: Limit,
    pub rejection_timeout: f32,
}
