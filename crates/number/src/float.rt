// The size of a float, and whether it is finite.
ghost use Rattle.std.specs.Prelude.{◌≡◌};
ghost use Rattle.std.specs.Float.Ieee.{lt};
ghost use Rattle.std.specs.Float.Ieee.Scale.{finite};
ghost use Rattle.number.specs.Same.{fabsf_of};

// The largest finite f32.
pub const MAX: f32 = 340282350000000000000000000000000000000.0;

// The size of x: its sign dropped, a zero's too. It is worked out here, as the root is, and not taken from a library.
pub fn fabsf(x: f32) -> f32
    ensures { result ≡ fabsf_of x }
{
    if x < 0.0 {
        return -x;
    }
    if x == 0.0 {
        return 0.0;
    }
    x
}

// Whether x is larger in size than the limit. A comparison does not see the sign of a zero, so one test less than `fabsf` has will do.
pub fn is_larger(x: f32, limit: f32) -> bool
    ensures { result ≡ lt limit (fabsf_of x) }
{
    if x < 0.0 {
        return -x > limit;
    }
    x > limit
}

// Neither NaN nor infinite: only of those two is x - x a NaN. The library compares with 0.0, in five instructions of an x86-64 for three.
pub fn is_finite(x: f32) -> bool
    ensures { result ≡ finite x }
{
    let d = x - x;
    d == d
}
