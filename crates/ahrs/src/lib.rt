// The filter, by value: the Rust's ahrs.rs. A call takes the state and hands it back beside the answer.
#![tactic(auto)]

ghost use Rattle.std.specs.Prelude.{◌≡◌};
ghost use Rattle.answer.specs.Refusals.{refusal_of};
ghost use Rattle.answer.specs.Rows.{number_in};
ghost use Rattle.ahrs.specs.Filter.{finite_state};
ghost use Rattle.ahrs.specs.Calls.{state_checks};

use answer::Refusal;
use math::Quaternion;
use vector::Vector;

pub mod change; // change.rt: start, restart, and the calls that set something
pub mod lent; // lent.rt: update_lent
pub mod read; // read.rt: calls that only read
pub mod update; // update.rt: one update

pub use lent::update_lent;
pub use settings::{Axes, Config, Limit, Settings};
pub use step::Rejection;

#[derive(Clone, Copy, Debug, PartialEq)]
pub struct Ahrs {
    pub settings: Settings,
    pub config: Config,
    pub quaternion: Quaternion,
    pub accelerometer: Vector,
    pub startup: bool,
    pub startup_gain: f32,
    pub overrange_recovery: Axes,
    pub acceleration: Rejection,
    pub magnetic: Rejection,
}

impl Ahrs {
    #[tactic(auto, unfolding(crate::specs::Filter::finite_state))]
    pub(crate) fn is_finite(self) -> bool
        ensures { result ≡ finite_state self }
    {
        self.settings.is_finite()
            & self.config.is_finite()
            & self.quaternion.is_finite()
            & self.accelerometer.is_finite()
            & number::is_finite(self.startup_gain)
            & self.acceleration.is_finite()
            & self.magnetic.is_finite()
    }

    // Why a state that is handed in is refused.
    #[tactic(auto, unfolding(answer::specs::Refusals::refusal_of))]
    pub(crate) fn check(self) -> Result<(), Refusal>
        ensures { number_in result ≡ refusal_of (state_checks self) }
    {
        if !self.settings.is_known() {
            return Err(Refusal::Unknown);
        }
        if !self.is_finite() {
            return Err(Refusal::NotFinite);
        }
        Ok(())
    }
}
