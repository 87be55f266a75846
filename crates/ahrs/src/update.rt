// One update of the filter.
ghost use Rattle.std.specs.Prelude.{◌≡◌};
ghost use Rattle.answer.specs.Rows.{row_of};
ghost use Rattle.ahrs.specs.Filter.{overrange_of, half_feedback_of, updated_of};
ghost use Rattle.ahrs.specs.Calls.{Updates};
ghost use Rattle.ahrs.specs.Inner.{finite_dropped, UpdateRefusal};

use super::Ahrs;
use answer::{Answer, Reading, Refusal};
use settings::config::INITIAL_STARTUP_GAIN;
use step::Rejection;
use step::direction::{calculate_half_gravity, calculate_half_west};
use step::rate::{half_angular_rate, integrate_quaternion, startup_gain};
use vector::Vector;

// What the two sensors leave, and the feedback of both.
#[derive(Clone, Copy, Debug, PartialEq)]
pub struct HalfFeedback {
    pub acceleration: Rejection,
    pub magnetic: Rejection,
    pub half_feedback: Vector,
}

impl Ahrs {
    // An overrange restarts all but quaternion and accelerometer, and keeps which axes went over.
    #[tactic(auto, unfolding(crate::specs::Filter::overrange_of))]
    fn overrange(self, gyroscope: Vector) -> Ahrs
        ensures { result ≡ overrange_of self gyroscope }
    {
        let axes = self.config.overrange(gyroscope);
        if !axes.any() {
            return self;
        }
        let fresh = Rejection::reset(self.config.rejection_timeout);
        Ahrs {
            startup: true,
            startup_gain: INITIAL_STARTUP_GAIN,
            overrange_recovery: axes,
            acceleration: fresh,
            magnetic: fresh,
            ..self
        }
    }

    // Both sensors' feedback, and its sum.
    #[tactic(auto, unfolding(crate::specs::Filter::half_feedback_of))]
    fn half_feedback(
        self,
        accelerometer: Vector,
        magnetometer: Vector,
        startup: bool,
    ) -> HalfFeedback
        ensures { result ≡ half_feedback_of self accelerometer magnetometer startup }
    {
        let gravity = calculate_half_gravity(self.settings.convention, self.quaternion);
        let west = calculate_half_west(self.settings.convention, self.quaternion);
        let inclination = self
            .acceleration
            .half_inclination_feedback(gravity, accelerometer, startup, self.config);
        let heading = self
            .magnetic
            .half_heading_feedback(gravity, west, magnetometer, startup, self.config);
        HalfFeedback {
            acceleration: inclination.rejection,
            magnetic: heading.rejection,
            half_feedback: inclination.half_feedback.add(heading.half_feedback),
        }
    }

    // What the Rust does, with no refusal.
    #[tactic(auto, unfolding(crate::specs::Filter::updated_of))]
    fn update_vectors(self, gyroscope: Vector, accelerometer: Vector, magnetometer: Vector) -> Ahrs
        ensures { result ≡ updated_of self gyroscope accelerometer magnetometer }
    {
        let now = self.overrange(gyroscope);
        let startup = startup_gain(
            now.config,
            now.startup,
            now.startup_gain,
            now.overrange_recovery,
        );
        let feedback = now.half_feedback(accelerometer, magnetometer, startup.startup);
        let rate = half_angular_rate(gyroscope, feedback.half_feedback, startup.gain);
        Ahrs {
            quaternion: integrate_quaternion(now.quaternion, rate.mul(now.config.sample_period)),
            accelerometer,
            startup: startup.startup,
            startup_gain: startup.startup_gain,
            overrange_recovery: startup.overrange_recovery,
            acceleration: feedback.acceleration,
            magnetic: feedback.magnetic,
            ..now
        }
    }

    // Whether what an update drops is finite. All else that it reads shows in the next state, which is not finite where that is not.
    fn dropped_is_finite(self) -> bool
        ensures { result ≡ finite_dropped self }
    {
        self.accelerometer.is_finite()
            & self.acceleration.is_finite()
            & self.magnetic.is_finite()
            & number::is_finite(self.startup_gain)
    }

    // Why an update is refused that is refused: 4, 5 where something given is not finite, else 7.
    #[tactic(auto, unfolding(answer::specs::Refusals::refusal_of))]
    fn update_refusal(
        self,
        gyroscope: Vector,
        accelerometer: Vector,
        magnetometer: Vector,
    ) -> Refusal
        ensures { UpdateRefusal self gyroscope accelerometer magnetometer (row_of result) }
    {
        if !self.settings.is_known() {
            return Refusal::Unknown;
        }
        let finite = gyroscope.is_finite() & accelerometer.is_finite() & magnetometer.is_finite();
        if !(self.is_finite() & finite) {
            return Refusal::NotFinite;
        }
        Refusal::Overflow
    }

    // What is finite is asked of the next state, and of each part only where the update is refused.
    // 4 is asked before it: among the tests after it, it makes an update 2 % longer.
    // The three sensors stand apart, as in the Rust's signature, and as every theorem of an update has them.
    pub fn update(
        self,
        gyroscope: Vector,
        accelerometer: Vector,
        magnetometer: Vector,
    ) -> Reading<Ahrs>
        ensures { Updates self gyroscope accelerometer magnetometer result }
    {
        if !self.settings.is_known() {
            return Reading::refused(self, Refusal::Unknown);
        }
        let next = self.update_vectors(gyroscope, accelerometer, magnetometer);
        if !(self.dropped_is_finite() & next.is_finite()) {
            let refusal = self.update_refusal(gyroscope, accelerometer, magnetometer);
            return Reading::refused(self, refusal);
        }
        let q = next.quaternion;
        Reading {
            state: next,
            answer: Answer::Oriented(q.w, q.x, q.y, q.z),
        }
    }
}
