// The angle is brought to a grid of 2^-26 degrees and reduced by quarter turns, the series are worked out in fixed point, and the
// result is rounded once.
ghost use Rattle.std.specs.Prelude.{◌≡◌, ◌*◌, ◌≤◌, T};
ghost use Rattle.trig.specs.Degrees.{in_turn, sine_at, cosine_at, within};
ghost use Rattle.trig.specs.Fixed.{one};
ghost use Rattle.trig.specs.Wave.{degree, steps_of, grid_of, quarters_of, radians_of, rest_of, float_of, rounded_of, slope_of, sin_of, cos_of};

use super::fixed::Fixed;

// The largest angle.
const TURN: f32 = 360.0;

// How many steps of the grid a degree has: 2^26.
const DEGREE: u64 = 67108864;

// The same as a float.
const STEPS: f32 = 67108864.0;

// 360 degrees on the grid.
const FULL_TURN: u64 = 360 * DEGREE;

// 90 degrees.
const QUARTER: u64 = 90 * DEGREE;

// 45 degrees.
const EIGHTH: u64 = 45 * DEGREE;

// pi / 180 in steps of 2^-37, the nearest.
const PI_OVER_180: u64 = 2398762259;

// A step of the grid times one of these is 2^-63 radians, and 2^33 of those are one step in fixed point.
const TWO_TO_33: u64 = 8589934592;

// What a fixed-point number without its last six places is divided by.
const TWO_TO_24: f32 = 16777216.0;

// What a whole slope is divided by.
const TWO_TO_29: f32 = 536870912.0;

// What a fixed-point number is divided by.
const TWO_TO_30: f32 = 1073741824.0;

// An angle from -360 to 360 degrees.
#[derive(Clone, Copy, Debug)]
pub(crate) struct Degrees {
    pub(crate) x: f32,
    pub(crate) ghost inside: { T (in_turn x) },
}

// An angle and 360 degrees on the grid, so that no sign is left.
#[derive(Clone, Copy, Debug)]
struct Lifted {
    y: u64,
    ghost small: { y ≤ 720 * degree },
}

pub fn in_turn(x: f32) -> bool
    ensures { result ≡ in_turn x }
{
    (-TURN <= x) & (x <= TURN)
}

// An angle of d steps of the grid in radians.
#[tactic(auto, unfolding(crate::specs::Wave::radians_of), using(crate::proofs::Quarter::radians_small))]
pub(crate) fn radians(d: u64) -> Fixed
    requires { d ≤ 45 * degree }
    ensures { result.n ≡ radians_of d }
{
    Fixed {
        n: d * PI_OVER_180 / TWO_TO_33,
    }
}

// size / 2^30 with the sign: size / 64 steps of 2^-24 and size % 64 of 2^-30 are exact, so that only their sum is rounded.
#[tactic(auto, unfolding(crate::specs::Wave::float_of))]
fn to_float(minus: bool, size: Fixed) -> f32
    ensures { result ≡ float_of minus size.n }
{
    let r = ((size.n / 64) as f32) / TWO_TO_24 + ((size.n % 64) as f32) / TWO_TO_30;
    if minus { -r } else { r }
}

impl Lifted {
    // How many quarter turns are nearest, the lower number at a tie.
    #[tactic(auto, unfolding(crate::specs::Degrees::turns))]
    fn quarters(self) -> u64
        ensures value { result ≡ quarters_of self.y }
        ensures small { result ≤ 8 }
    {
        (self.y + EIGHTH - 1) / QUARTER
    }

    // What is left when the nearest quarter turns are taken off, in radians.
    fn rest(self) -> Fixed
        ensures { result.n ≡ rest_of self.y }
    {
        radians(self.y.abs_diff(self.quarters() * QUARTER))
    }
}

impl Degrees {
    // The size of x on the grid, cut toward zero.
    pub(crate) fn steps(self) -> u64
        ensures value { result ≡ steps_of self.x }
        ensures small { result ≤ 360 * degree }
    {
        std::num::truncating_f32_to_u64(number::fabsf(self.x) * STEPS)
    }

    fn lifted(self) -> Lifted
        ensures { result.y ≡ grid_of self.x }
    {
        let steps = self.steps();
        if self.x < 0.0 {
            return Lifted {
                y: FULL_TURN - steps,
            };
        }
        Lifted {
            y: FULL_TURN + steps,
        }
    }

    // The sine of x degrees and k quarter turns, by the series and rounded.
    fn rounded(self, k: u64) -> f32
        requires { k ≤ 1 }
        ensures { result ≡ rounded_of k self.x }
    {
        let lifted = self.lifted();
        let at = lifted.quarters();
        let t = lifted.rest();
        let q = at + k;
        let back = 2 <= q % 4;
        if q % 2 == 0 {
            let behind = lifted.y < at * QUARTER;
            to_float(behind != back, t.sine())
        } else {
            to_float(back, t.cosine())
        }
    }

    // What the sine of x has of x: a whole number of 2^-29, and so exact.
    #[tactic(auto, unfolding(crate::specs::Wave::slope_of))]
    fn slope(self) -> f32
        ensures { result ≡ slope_of self.x }
    {
        (self.lifted().rest().per_degree() as f32) / TWO_TO_29
    }
}

// The sine of x degrees, from -360 to 360; NaN elsewhere. Below a degree it is x times its slope there, so that the smallest angles keep all their digits.
pub fn sin(x: f32) -> f32
    ensures value { result ≡ sin_of x }
    ensures near { T (in_turn x) → T (within 23 result (sine_at x)) }
{
    if !in_turn(x) {
        return 0.0 / 0.0;
    }
    let degrees = Degrees { x };
    if number::fabsf(x) < 1.0 {
        return x * degrees.slope();
    }
    degrees.rounded(0)
}

// The cosine of x degrees, from -360 to 360; NaN elsewhere. It is the sine a quarter turn on.
pub fn cos(x: f32) -> f32
    ensures value { result ≡ cos_of x }
    ensures near { T (in_turn x) → T (within 23 result (cosine_at x)) }
{
    if !in_turn(x) {
        return 0.0 / 0.0;
    }
    Degrees { x }.rounded(1)
}
