// The rules of one update, each over the values that it reads: no state, and nothing refused.
#![tactic(auto)]

use vector::Vector;

pub mod direction; // direction.rt: where gravity and west lie
pub mod rate; // rate.rt: the gain, the rate of turning, and the turn
pub mod sensor; // sensor.rt: one sensor's rejection

pub use settings::{Config, Settings};

// One sensor's rejection, and how many updates in a row, up to now, have ignored the sensor.
#[derive(Clone, Copy, Debug, PartialEq)]
pub struct Rejection {
    pub half_residual: Vector,
    pub recovery_trigger: i32,
    pub recovery_threshold: i32,
    pub ignored: bool,
    pub ignored_count: u32,
}
