// The series in fixed point: every product is cut toward zero.
ghost use Rattle.std.specs.Prelude.{◌≡◌, ◌≤◌, All};
ghost use Rattle.trig.specs.Fixed.{one, slope, IsDivisor, scaled_of, stage_of, series_of, sine_fixed_of, cosine_fixed_of, per_degree_of};

// 1: 2^30.
const ONE: u64 = 1073741824;

// A half, to round by.
const HALF: u64 = 536870912;

// pi / 180 in steps of 2^-29, the nearest.
const SLOPE: u64 = 9370165;

// What the stages of the sine divide by, the innermost first.
const SINE: [u64; 5] = [110, 72, 42, 20, 6];

// And those of the cosine.
const COSINE: [u64; 5] = [90, 56, 30, 12, 2];

// A number up to 1: n / 2^30. As an angle it is in radians.
#[derive(Clone, Copy, Debug)]
pub(crate) struct Fixed {
    pub(crate) n: u64,
    pub(crate) ghost small: { n ≤ one },
}

impl Fixed {
    // self * b / c.
    #[tactic(auto, unfolding(crate::specs::Fixed::scaled_of), using(crate::proofs::Around::cut_fixed))]
    pub(crate) fn scaled(self, b: Fixed, c: u64) -> Fixed
        requires { IsDivisor c }
        ensures { result.n ≡ scaled_of self.n b.n c }
    {
        Fixed {
            n: self.n * b.n / (c * ONE),
        }
    }

    // 1 - self * h / c.
    #[tactic(auto, unfolding(crate::specs::Fixed::stage_of))]
    fn stage(self, h: Fixed, c: u64) -> Fixed
        requires { IsDivisor c }
        ensures { result.n ≡ stage_of self.n h.n c }
    {
        Fixed {
            n: ONE - self.scaled(h, c).n,
        }
    }

    // The stages at the square of self, a stage for each divisor.
    fn series(self, divisors: [u64; 5]) -> Fixed
        requires { All IsDivisor divisors }
        ensures { result.n ≡ series_of self.n divisors }
    {
        let square = self.scaled(self, 1);
        let mut h = Fixed { n: ONE };
        for c in divisors {
            h = square.stage(h, c);
        }
        h
    }

    #[tactic(auto, unfolding(crate::specs::Fixed::sine_fixed_of))]
    pub(crate) fn sine(self) -> Fixed
        ensures { result.n ≡ sine_fixed_of self.n }
    {
        self.scaled(self.series(SINE), 1)
    }

    #[tactic(auto, unfolding(crate::specs::Fixed::cosine_fixed_of))]
    pub(crate) fn cosine(self) -> Fixed
        ensures { result.n ≡ cosine_fixed_of self.n }
    {
        self.series(COSINE)
    }

    // What the sine has of the angle's degrees, in steps of 2^-29, the nearest: a whole number that an f32 holds.
    #[tactic(auto, unfolding(crate::specs::Fixed::per_degree_of), using(crate::proofs::Slope::slope_small))]
    pub(crate) fn per_degree(self) -> u64
        ensures value { result ≡ per_degree_of self.n }
        ensures small { result ≤ slope }
    {
        (self.series(SINE).n * SLOPE + HALF) / ONE
    }
}
