// Calls that only read the state: what they read, or a refusal.
ghost use Rattle.std.specs.Prelude.{◌≡◌};
ghost use Rattle.ahrs.specs.Read.{gravity_of, linear_of, earth_frame_of, without_gravity, earth_of};
ghost use Rattle.ahrs.specs.Calls.{SettingsReads, QuaternionReads, VectorReads, FlagsReads, StatesReads, IgnoredReads};

use super::Ahrs;
use answer::Refusal;
use math::Quaternion;
use settings::{Axes, NED, Settings};
use step::direction::calculate_half_gravity;
use vector::Vector;

// Overrange recovery shows the axes that went over last. It is on where they are not none.
#[derive(Clone, Copy, Debug, PartialEq)]
pub struct Flags {
    pub startup: bool,
    pub overrange_recovery: Axes,
    pub acceleration_recovery: bool,
    pub magnetic_recovery: bool,
}

// The Rust's internal states without the error angles. A trigger is a fraction of the timeout.
#[derive(Clone, Copy, Debug, PartialEq)]
pub struct InternalStates {
    pub accelerometer_ignored: bool,
    pub acceleration_recovery_trigger: f32,
    pub magnetometer_ignored: bool,
    pub magnetic_recovery_trigger: f32,
}

// How many updates in a row, up to now, have ignored each sensor. A reading of zeros is ignored too; the largest count stays.
#[derive(Clone, Copy, Debug, PartialEq)]
pub struct IgnoredCounts {
    pub accelerometer: u32,
    pub magnetometer: u32,
}

// A vector from the sensor's frame to the Earth's: each axis by half a row of the rotation matrix.
#[tactic(auto, unfolding(crate::specs::Read::earth_frame_of))]
fn earth_frame(q: Quaternion, a: Vector) -> Vector
    ensures { result ≡ earth_frame_of q a }
{
    let x = Vector {
        x: q.w * q.w - 0.5 + q.x * q.x,
        y: q.x * q.y - q.w * q.z,
        z: q.x * q.z + q.w * q.y,
    };
    let y = Vector {
        x: q.x * q.y + q.w * q.z,
        y: q.w * q.w - 0.5 + q.y * q.y,
        z: q.y * q.z - q.w * q.x,
    };
    let z = Vector {
        x: q.x * q.z - q.w * q.y,
        y: q.y * q.z + q.w * q.x,
        z: q.w * q.w - 0.5 + q.z * q.z,
    };
    Vector {
        x: 2.0 * x.dot(a),
        y: 2.0 * y.dot(a),
        z: 2.0 * z.dot(a),
    }
}

// An acceleration in the Earth's frame without gravity's 1 g, which points down in NED. Of any number, as `without_gravity` of specs/ is.
#[tactic(auto, unfolding(crate::specs::Read::without_gravity))]
fn without_gravity(convention: u8, v: Vector) -> Vector
    ensures { result ≡ without_gravity convention v }
{
    if convention == NED {
        return Vector { z: v.z + 1.0, ..v };
    }
    Vector { z: v.z - 1.0, ..v }
}

impl Ahrs {
    pub fn settings(self) -> Result<Settings, Refusal>
        ensures { SettingsReads self result }
    {
        self.check()?;
        Ok(self.settings)
    }

    pub fn quaternion(self) -> Result<Quaternion, Refusal>
        ensures { QuaternionReads self result }
    {
        self.check()?;
        Ok(self.quaternion)
    }

    // A vector worked out from the state, which is refused too where it is not finite.
    #[tactic(auto, unfolding(answer::specs::Refusals::refusal_of))]
    fn read_vector(self, v: Vector) -> Result<Vector, Refusal>
        ensures { VectorReads self v result }
    {
        self.check()?;
        if !v.is_finite() {
            return Err(Refusal::Overflow);
        }
        Ok(v)
    }

    // Gravity's direction in the sensor's frame.
    #[tactic(auto, unfolding(crate::specs::Read::gravity_of))]
    pub fn gravity(self) -> Result<Vector, Refusal>
        ensures { VectorReads self (gravity_of self) result }
    {
        let gravity = calculate_half_gravity(self.settings.convention, self.quaternion).mul(2.0);
        self.read_vector(gravity)
    }

    // The acceleration without gravity, in the sensor's frame.
    #[tactic(auto, unfolding(crate::specs::Read::linear_of, crate::specs::Read::gravity_of))]
    pub fn linear_acceleration(self) -> Result<Vector, Refusal>
        ensures { VectorReads self (linear_of self) result }
    {
        let gravity = calculate_half_gravity(self.settings.convention, self.quaternion).mul(2.0);
        self.read_vector(self.accelerometer.sub(gravity))
    }

    // The acceleration without gravity, in the Earth's frame.
    #[tactic(auto, unfolding(crate::specs::Read::earth_of))]
    pub fn earth_acceleration(self) -> Result<Vector, Refusal>
        ensures { VectorReads self (earth_of self) result }
    {
        let acceleration = earth_frame(self.quaternion, self.accelerometer);
        self.read_vector(without_gravity(self.settings.convention, acceleration))
    }

    #[tactic(auto, unfolding(crate::specs::Read::flags_of))]
    pub fn flags(self) -> Result<Flags, Refusal>
        ensures { FlagsReads self result }
    {
        self.check()?;
        Ok(Flags {
            startup: self.startup,
            overrange_recovery: self.overrange_recovery,
            acceleration_recovery: self.acceleration.counts().recovery(),
            magnetic_recovery: self.magnetic.counts().recovery(),
        })
    }

    // The ratios are finite whatever the counts are, so 7 is not asked for.
    #[tactic(auto, unfolding(crate::specs::Read::states_of))]
    pub fn internal_states(self) -> Result<InternalStates, Refusal>
        ensures { StatesReads self result }
    {
        self.check()?;
        let timeout = self.config.rejection_timeout;
        Ok(InternalStates {
            accelerometer_ignored: self.acceleration.ignored,
            acceleration_recovery_trigger: self.acceleration.recovery_trigger(timeout),
            magnetometer_ignored: self.magnetic.ignored,
            magnetic_recovery_trigger: self.magnetic.recovery_trigger(timeout),
        })
    }

    pub fn ignored_counts(self) -> Result<IgnoredCounts, Refusal>
        ensures { IgnoredReads self result }
    {
        self.check()?;
        Ok(IgnoredCounts {
            accelerometer: self.acceleration.ignored_count,
            magnetometer: self.magnetic.ignored_count,
        })
    }
}
