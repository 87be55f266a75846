// The squared limit that a rejection angle stands for.
ghost use Rattle.std.specs.Prelude.{◌≡◌};
ghost use Rattle.trig.specs.Limit.{rejection_threshold_of};

use super::wave;

// Half the sine, squared; the angle 0 stands for no limit. NaN where there is no sine.
pub fn rejection_threshold(degrees: f32) -> f32
    ensures { result ≡ rejection_threshold_of degrees }
{
    if degrees == 0.0 {
        return number::MAX;
    }
    let half_sin = 0.5 * wave::sin(degrees);
    half_sin * half_sin
}
