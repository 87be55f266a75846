// The root of an f32, correctly rounded, by a search over whole significands. The bits from 1 to
// 0x7f7f_ffff are those of the finite numbers above zero, 0x7f80_0000 those of plus infinity.
#![tactic(auto)]

ghost use Rattle.std.specs.Prelude.{◌≡◌, ◌<◌, ◌≤◌, ◌*◌, ◌/◌, ◌^◌};
ghost use Rattle.root.specs.Root.{nearest_root_of, significand_of, exponent_of, squared_of, root_bits_of, sqrt_of, Root};

// Where the search for the root of n begins: a parabola, and two steps of Heron's method without
// their halvings, which give twice and four times the root: 2^54 + 4 * g has g, rounded, in its low
// bits. The search relies on the range alone.
fn candidate(n: u64) -> u64
    requires { n < 2 ^ 48 }
    ensures { result < 2 ^ 25 }
{
    let t = n as f64;
    let g = 4349951.5 + t * (0.0000000627052414 - 0.00000000000000000000006698356 * t);
    let twice = g + t / g;
    let w = twice + 4.0 * t / twice + 18014398509481984.0;
    std::num::f64_to_bits_with_nan(w) % 33554432
}

// The whole number nearest the root of n. The search ends with its candidate once no neighbour is
// nearer, (r - 1/2)^2 < n < (r + 1/2)^2, which nearly always holds of the first. Its form is a rule of
// the project: a loop that breaks with the rounded significand.
fn nearest_root(n: u64) -> u64
    requires { (1 ≤ n) × (n < 2 ^ 48) }
    ensures { result ≡ nearest_root_of n }
{
    let mut r = candidate(n);
    let significand = loop {
        let square = r * r;
        if (n <= square + r) & (square < n + r) {
            break r;
        }
        if square < n {
            r += 1;
        } else {
            r -= 1;
        }
    };
    significand
}

// A finite number above zero, by its bits.
#[derive(Clone, Copy)]
struct Finite {
    bits: u32,
    ghost in_range: { (1 ≤ bits) × (bits < 0x7f80_0000) },
}

impl Finite {
    // The number is `significand` * 2^(`exponent` - 275), and the significand has 24 digits.
    #[tactic(auto, unfolding(crate::specs::Root::significand_of))]
    fn significand(self) -> u64
        ensures { result ≡ significand_of self.bits }
    {
        let b = self.bits;
        if b < 8388608 {
            u64::from(b << (b.leading_zeros() - 8))
        } else {
            u64::from(8388608 + b % 8388608)
        }
    }

    #[tactic(auto, unfolding(crate::specs::Root::exponent_of))]
    fn exponent(self) -> u32
        ensures { result ≡ exponent_of self.bits }
    {
        let b = self.bits;
        if b < 8388608 {
            134 - b.leading_zeros()
        } else {
            125 + b / 8388608
        }
    }

    // The significand times 2^23 or 2^24, so that what is left of the power of two has a root. In a
    // number that is not subnormal the exponent's last digit stands above the significand's 23: v is
    // these 24 with the first turned round, and v + 2^23 or 2 * v the significand or its double.
    fn squared(self) -> u64
        ensures { result ≡ squared_of self.bits }
    {
        let b = self.bits;
        if b < 8388608 {
            let sig = self.significand();
            if self.exponent() % 2 == 0 {
                return sig * 8388608;
            }
            return sig * 16777216;
        }
        let v = (b + 8388608) % 16777216;
        if v < 8388608 {
            return u64::from(v + 8388608) * 8388608;
        }
        u64::from(v + v) * 8388608
    }

    // The root's exponent, at its place in the bits.
    #[tactic(auto, unfolding(crate::specs::Root::exponent_of))]
    fn half_exponent(self) -> u32
        ensures { result ≡ exponent_of self.bits / 2 * 8388608 }
    {
        let b = self.bits;
        if b < 8388608 {
            return self.exponent() / 2 * 8388608;
        }
        (b + 1048576000) / 16777216 * 8388608
    }

    // The bits of the root.
    fn root_bits(self) -> u32
        ensures { result ≡ root_bits_of self.bits }
    {
        self.half_exponent() + nearest_root(self.squared()) as u32
    }
}

// The f32 nearest the exact root. Zero keeps its sign, plus infinity stays, a negative number or NaN
// gives NaN.
pub fn sqrtf(x: f32) -> f32
    ensures value { result ≡ sqrt_of x }
    ensures nearest { Root x result }
{
    if x > 0.0 {
        let b = x.to_bits();
        if b < 0x7f80_0000 {
            f32::from_bits(Finite { bits: b }.root_bits())
        } else {
            x
        }
    } else if x == 0.0 {
        x
    } else {
        0.0 / 0.0
    }
}
