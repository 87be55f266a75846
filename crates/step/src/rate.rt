// The gain in use, the rate of turning, and the turn.
ghost use Rattle.std.specs.Prelude.{◌≡◌};
ghost use Rattle.step.specs.Rate.{startup_gain_of, rate_of, integrated_of};

use super::Config;
use math::Quaternion;
use settings::Axes;
use vector::Vector;

const DEG_TO_RAD: f32 = 0.017453292;

// What startup leaves, and the gain to apply.
#[derive(Clone, Copy, Debug, PartialEq)]
pub struct Startup {
    pub startup: bool,
    pub startup_gain: f32,
    pub overrange_recovery: Axes,
    pub gain: f32,
}

// The gain falls before use, and startup ends when it is no longer above the settings' gain.
// What startup has comes one by one, and no struct: so startup_gain_of takes it, of which every theorem of an update is made.
#[tactic(auto, unfolding(crate::specs::Rate::startup_gain_of))]
pub fn startup_gain(
    config: Config,
    startup: bool,
    startup_gain: f32,
    overrange_recovery: Axes,
) -> Startup
    ensures { result ≡ startup_gain_of config startup startup_gain overrange_recovery }
{
    if !startup {
        return Startup {
            startup,
            startup_gain,
            overrange_recovery,
            gain: config.gain,
        };
    }
    let fallen = startup_gain - config.startup_gain_rate;
    if fallen > config.gain {
        return Startup {
            startup,
            startup_gain: fallen,
            overrange_recovery,
            gain: fallen,
        };
    }
    Startup {
        startup: false,
        startup_gain: fallen,
        overrange_recovery: Axes::NONE,
        gain: config.gain,
    }
}

// The gyroscope in half radians, and the feedback times the gain.
#[tactic(auto, unfolding(crate::specs::Rate::rate_of))]
pub fn half_angular_rate(gyroscope: Vector, half_feedback: Vector, gain: f32) -> Vector
    ensures { result ≡ rate_of gyroscope half_feedback gain }
{
    let half_gyroscope = gyroscope.mul(DEG_TO_RAD * 0.5);
    half_gyroscope.add(half_feedback.mul(gain))
}

#[tactic(auto, unfolding(crate::specs::Rate::integrated_of))]
pub fn integrate_quaternion(q: Quaternion, half_angular_displacement: Vector) -> Quaternion
    ensures { result ≡ integrated_of q half_angular_displacement }
{
    q.add(q.vector_product(half_angular_displacement))
        .normalize()
}
