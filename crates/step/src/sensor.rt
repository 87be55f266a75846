// One sensor's rejection; its counts are the crate `rejection`'s. Startup and the config stand apart, as the definitions that theorems of an
// update are made of have them (half_inclination_feedback_of, half_heading_feedback_of).
ghost use Rattle.std.specs.Prelude.{◌≡◌};
ghost use Rattle.step.specs.Sensor.{reset_of, residual_of, longer_of, skipped_of, rejected_of, half_inclination_feedback_of, half_heading_feedback_of};
ghost use Rattle.step.specs.Sensor.{counts_of, Ratio, finite_rejection};

use super::{Config, Rejection};
use rejection::Counts;
use vector::{Components, Vector};

// A sensor's next rejection, and the feedback to apply, scaled by 0.5.
#[derive(Clone, Copy, Debug, PartialEq)]
pub struct Feedback {
    pub rejection: Rejection,
    pub half_feedback: Vector,
}

// The cross product where the dot is above 0, otherwise the normalized cross.
#[tactic(auto, unfolding(crate::specs::Sensor::residual_of))]
pub fn residual(sensor: Vector, reference: Vector) -> Vector
    ensures { result ≡ residual_of sensor reference }
{
    let cross = sensor.cross(reference);
    if sensor.dot(reference) > 0.0 {
        return cross;
    }
    cross.normalize()
}

// One more update that ignores the sensor; the largest count stays.
#[tactic(auto, unfolding(crate::specs::Sensor::longer_of))]
fn longer(count: u32) -> u32
    ensures { result ≡ longer_of count }
{
    count.saturating_add(1)
}

impl Rejection {
    // The Rust's `Rejection::new`.
    #[tactic(auto, unfolding(crate::specs::Sensor::reset_of))]
    pub fn reset(timeout: i32) -> Rejection
        ensures { result ≡ reset_of timeout }
    {
        Rejection {
            half_residual: Vector::ZERO,
            recovery_trigger: 0,
            recovery_threshold: timeout,
            ignored: false,
            ignored_count: 0,
        }
    }

    // An update with no measurement marks the sensor ignored.
    #[tactic(auto, unfolding(crate::specs::Sensor::skipped_of))]
    pub fn skip(self) -> Feedback
        ensures { result ≡ skipped_of self }
    {
        let ignored_count = longer(self.ignored_count);
        Feedback {
            rejection: Rejection {
                ignored: true,
                ignored_count,
                ..self
            },
            half_feedback: Vector::ZERO,
        }
    }

    // The two counts are fields here, as in the Rust, and as the starred rows have them (StarredRows). A method and no From: it reads plainer.
    pub fn counts(self) -> Counts
        ensures { result ≡ counts_of self }
    {
        Counts {
            trigger: self.recovery_trigger,
            threshold: self.recovery_threshold,
        }
    }

    // With a new residual.
    #[tactic(auto, unfolding(crate::specs::Sensor::rejected_of))]
    pub fn update(
        self,
        half_residual: Vector,
        startup: bool,
        rejection: f32,
        timeout: i32,
    ) -> Feedback
        ensures { result ≡ rejected_of self half_residual startup rejection timeout }
    {
        let good = startup | (half_residual.norm_squared() <= rejection);
        let updated = self.counts().update(!good, timeout);
        let rejection = Rejection {
            half_residual,
            recovery_trigger: updated.counts.trigger,
            recovery_threshold: updated.counts.threshold,
            ignored: false,
            ignored_count: 0,
        };
        if updated.used {
            return Feedback {
                rejection,
                half_feedback: half_residual,
            };
        }
        Feedback {
            rejection: Rejection {
                ignored: true,
                ignored_count: longer(self.ignored_count),
                ..rejection
            },
            half_feedback: Vector::ZERO,
        }
    }

    // The accelerometer's. Of what it has in common with the magnetometer's both call `skip`, `residual` and `update`; they differ in what is
    // normalized, in what it is held against, and in whose limit it is.
    #[tactic(auto, unfolding(crate::specs::Sensor::half_inclination_feedback_of))]
    pub fn half_inclination_feedback(
        self,
        half_gravity: Vector,
        accelerometer: Vector,
        startup: bool,
        config: Config,
    ) -> Feedback
        ensures { result ≡ half_inclination_feedback_of self half_gravity accelerometer startup config }
    {
        if accelerometer.is_zero() {
            return self.skip();
        }
        let half_residual = residual(accelerometer.normalize(), half_gravity);
        self.update(
            half_residual,
            startup,
            config.acceleration_rejection,
            config.rejection_timeout,
        )
    }

    // The magnetometer's.
    #[tactic(auto, unfolding(crate::specs::Sensor::half_heading_feedback_of))]
    pub fn half_heading_feedback(
        self,
        half_gravity: Vector,
        half_west: Vector,
        magnetometer: Vector,
        startup: bool,
        config: Config,
    ) -> Feedback
        ensures { result ≡ half_heading_feedback_of self half_gravity half_west magnetometer startup config }
    {
        if magnetometer.is_zero() {
            return self.skip();
        }
        let half_residual = residual(half_gravity.cross(magnetometer).normalize(), half_west);
        self.update(
            half_residual,
            startup,
            config.magnetic_rejection,
            config.rejection_timeout,
        )
    }

    // The recovery trigger as a fraction of the timeout.
    pub fn recovery_trigger(self, timeout: i32) -> f32
        ensures { Ratio self timeout result }
    {
        if timeout == 0 {
            return 0.0;
        }
        number::from_i32(self.recovery_trigger) / number::from_i32(timeout)
    }

    #[tactic(auto, unfolding(crate::specs::Sensor::finite_rejection))]
    pub fn is_finite(self) -> bool
        ensures { result ≡ finite_rejection self }
    {
        self.half_residual.is_finite()
    }
}
