// The angle of a point (y, x) in degrees, above -180 and at most 180: the Rust's atan2f, with zero's sign ignored. y and x come one by one, as
// there.
ghost use Rattle.std.specs.Prelude.{◌≡◌, ◌+◌, ◌-◌, ◌<◌, ◌≤◌, T};
ghost use Rattle.std.specs.Float.Ieee.Scale.{finite};
ghost use Rattle.trig.specs.Angle.{full_turn, half_turn, ordered, ratio_of, flat_steps_of, steep_steps_of, degrees_of, bearing_of, angle_of, Angled};

use super::octant::{Octant, Tangent};
use super::wave::Degrees;

// 360 degrees in steps of 2^-16, which an angle is lifted by so that no sign is left.
const FULL_TURN: u64 = 23592960;

const HALF_TURN: u64 = 11796480;

const QUARTER_TURN: u64 = 5898240;

// How many steps a degree has: 2^16.
const STEPS: f32 = 65536.0;

// An angle of a point, and 360 degrees, in steps.
#[derive(Clone, Copy, Debug)]
struct Lifted {
    steps: u64,
    ghost above: { full_turn - half_turn < steps },
    ghost most: { steps ≤ full_turn + half_turn },
}

impl Lifted {
    // Less 360 degrees, exactly.
    #[tactic(auto, unfolding(crate::specs::Angle::degrees_of))]
    fn degrees(self) -> f32
        ensures { result ≡ degrees_of self.steps }
    {
        if self.steps < FULL_TURN {
            return -(((FULL_TURN - self.steps) as f32) / STEPS);
        }
        ((self.steps - FULL_TURN) as f32) / STEPS
    }
}

// Whether y and whether x is below 0.
#[derive(Clone, Copy, Debug, PartialEq, Eq)]
struct Signs {
    down: bool,
    back: bool,
}

impl Signs {
    // Where |y| <= |x|: on from 0 or from 180 degrees, or back, and never at -180.
    fn flat(self, angle: Octant) -> Lifted
        ensures { result.steps ≡ flat_steps_of self.down self.back angle.n }
    {
        Lifted {
            steps: match (self.down, self.back) {
                (false, false) => FULL_TURN + angle.n,
                (true, false) => FULL_TURN - angle.n,
                (true, true) if angle.n != 0 => FULL_TURN - HALF_TURN + angle.n,
                (_, true) => FULL_TURN + HALF_TURN - angle.n,
            },
        }
    }

    // Where |x| < |y|: on from 90 or from -90 degrees, or back.
    fn steep(self, angle: Octant) -> Lifted
        ensures { result.steps ≡ steep_steps_of self.down self.back angle.n }
    {
        Lifted {
            steps: match (self.down, self.back) {
                (false, false) => FULL_TURN + QUARTER_TURN - angle.n,
                (false, true) => FULL_TURN + QUARTER_TURN + angle.n,
                (true, false) => FULL_TURN - QUARTER_TURN + angle.n,
                (true, true) => FULL_TURN - QUARTER_TURN - angle.n,
            },
        }
    }
}

// small / large, within one step.
fn ratio(small: f32, large: f32) -> Tangent
    requires { T (ordered small large) }
    ensures { result.p ≡ ratio_of small large }
{
    let q = small / large;
    if q > 0.0 {
        return Tangent {
            p: Degrees { x: q }.steps() / 4,
        };
    }
    Tangent { p: 0 }
}

// The angle of y and x that are finite.
fn bearing(y: f32, x: f32) -> f32
    requires { T (finite y) × T (finite x) }
    ensures { result ≡ bearing_of y x }
{
    let signs = Signs {
        down: y < 0.0,
        back: x < 0.0,
    };
    let ay = number::fabsf(y);
    let ax = number::fabsf(x);
    if ax < ay {
        return signs.steep(ratio(ax, ay).octant()).degrees();
    }
    if ax > 0.0 {
        return signs.flat(ratio(ay, ax).octant()).degrees();
    }
    0.0
}

// 0 where both are 0, of whichever sign; NaN where one is not finite.
pub fn angle(y: f32, x: f32) -> f32
    ensures value { result ≡ angle_of y x }
    ensures toward { T (finite y) → T (finite x) → Angled y x result }
{
    if !(number::is_finite(y) & number::is_finite(x)) {
        return 0.0 / 0.0;
    }
    bearing(y, x)
}
