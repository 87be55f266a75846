// The sine and the cosine of any f32, and the angle of any two, by the refusal table. One function over sin and cos would have to say in its
// contract what theirs say, and is no plainer than two calls behind one check.
ghost use Rattle.std.specs.Prelude.{◌≡◌};
ghost use Rattle.answer.specs.Refusals.{refusal_of};
ghost use Rattle.answer.specs.Rows.{number_in};
ghost use Rattle.trig.specs.Degrees.{sine_at, cosine_at};
ghost use Rattle.trig.specs.Wave.{sin_of, cos_of};
ghost use Rattle.trig.specs.Calls.{angle_checks, Gives, AnswersNear, GivesAngle, AnswersAngled};

use super::{point, wave};
use answer::Refusal;

// Where x is not finite, and then where it is not from -360 to 360.
#[tactic(auto, unfolding(answer::specs::Refusals::refusal_of))]
fn check(x: f32) -> Result<(), Refusal>
    ensures { number_in result ≡ refusal_of (angle_checks x) }
{
    if !number::is_finite(x) {
        return Err(Refusal::NotFinite);
    }
    if !wave::in_turn(x) {
        return Err(Refusal::OutOfRange);
    }
    Ok(())
}

pub fn sin_degrees(x: f32) -> Result<f32, Refusal>
    ensures gives { Gives x (sin_of x) result }
    ensures near { AnswersNear (sine_at x) result }
{
    check(x)?;
    Ok(wave::sin(x))
}

pub fn cos_degrees(x: f32) -> Result<f32, Refusal>
    ensures gives { Gives x (cos_of x) result }
    ensures near { AnswersNear (cosine_at x) result }
{
    check(x)?;
    Ok(wave::cos(x))
}

// The angle of any point, above -180 and at most 180 degrees.
pub fn angle_degrees(y: f32, x: f32) -> Result<f32, Refusal>
    ensures gives_angle { GivesAngle y x result }
    ensures toward { AnswersAngled y x result }
{
    if !(number::is_finite(y) & number::is_finite(x)) {
        return Err(Refusal::NotFinite);
    }
    Ok(point::angle(y, x))
}
