// The angle up to 45 degrees whose tangent is given: a polynomial's guess where one test finds it near enough, and else a bisection.
// The guess needs no proof; it was found near enough at every tangent.
ghost use Rattle.std.specs.Prelude.{◌≡◌, ◌*◌, ◌≤◌};
ghost use Rattle.trig.specs.Fixed.{one};
ghost use Rattle.trig.specs.Octant.{tangent_one, most, rise_of, run_of, is_level, term_of, guess_of, halved_of, bisected_of, nearer_of, octant_of};

use super::fixed::Fixed;
use super::wave;

// The tangent 1: 2^24.
const TANGENT_ONE: u64 = 16777216;

// 45 degrees.
const MOST: u64 = 2949120;

// How many steps of the sine's grid are one of these.
const GRID: u64 = 1024;

// How far off an angle may be: 352 steps of the fixed-point sine, at the tangent 1.
const OFF: u64 = 352 * TANGENT_ONE;

// From 45 degrees down to one step.
const HALVINGS: u64 = 22;

// A tangent up to 1, in steps of 2^-24.
#[derive(Clone, Copy, Debug)]
pub(crate) struct Tangent {
    pub(crate) p: u64,
    pub(crate) ghost small: { p ≤ tangent_one },
}

// An angle up to 45 degrees, in steps of 2^-16 degrees.
#[derive(Clone, Copy, Debug)]
pub(crate) struct Octant {
    pub(crate) n: u64,
    pub(crate) ghost small: { n ≤ most },
}

// The angle lies from lo to hi.
#[derive(Clone, Copy, Debug)]
pub(crate) struct Span {
    lo: u64,
    hi: u64,
}

// a - u * h, in fixed point.
fn term(a: Fixed, u: Fixed, h: Fixed) -> Fixed
    requires { h.n ≤ a.n }
    ensures value { result.n ≡ term_of a.n u.n h.n }
    ensures small { result.n ≤ a.n }
{
    Fixed {
        n: a.n - u.scaled(h, 1).n,
    }
}

impl Octant {
    // The sine, at the tangent 1.
    #[tactic(auto, unfolding(crate::specs::Octant::sine_step))]
    fn rise(self) -> u64
        ensures value { result ≡ rise_of self.n }
        ensures small { result ≤ one * tangent_one }
    {
        wave::radians(self.n * GRID).sine().n * TANGENT_ONE
    }

    // The cosine, at the tangent p.
    #[tactic(auto, unfolding(crate::specs::Octant::cosine_step))]
    fn run(self, p: Tangent) -> u64
        ensures value { result ≡ run_of p.p self.n }
        ensures small { result ≤ one * tangent_one }
    {
        p.p * wave::radians(self.n * GRID).cosine().n
    }
}

impl Tangent {
    // Whether n steps have nearly this tangent.
    fn is_level(self, n: u64) -> bool
        ensures { result ≡ is_level self.p n }
    {
        if n > MOST {
            return false;
        }
        let angle = Octant { n };
        angle.rise().abs_diff(angle.run(self)) <= OFF
    }

    // The polynomial in the tangent, its coefficients in steps times 2^8 and fitted to the arc tangent.
    fn guess(self) -> u64
        ensures { result ≡ guess_of self.p }
    {
        let u = Fixed {
            n: self.p * self.p / 262144,
        };
        // Each coefficient is at least the term before, as `term` asks: a loop would have to carry that.
        let h6 = term(Fixed { n: 21016096 }, u, Fixed { n: 3897516 });
        let h5 = term(Fixed { n: 53746529 }, u, h6);
        let h4 = term(Fixed { n: 92686968 }, u, h5);
        let h3 = term(Fixed { n: 133698613 }, u, h4);
        let h2 = term(Fixed { n: 191739091 }, u, h3);
        let h1 = term(Fixed { n: 320387843 }, u, h2);
        let h0 = term(Fixed { n: 961263030 }, u, h1);
        (self.p * h0.n + 2147483648) / 4294967296
    }

    // The half in which the tangent is not passed at lo, and is at hi.
    #[tactic(auto, unfolding(crate::specs::Octant::halved_of))]
    fn halved(self, span: Span) -> Span
        requires { (span.lo ≤ most) × (span.hi ≤ most) }
        ensures { result ≡ halved_of self.p span }
    {
        let mid = Octant {
            n: (span.lo + span.hi) / 2,
        };
        if mid.rise() <= mid.run(self) {
            Span {
                lo: mid.n,
                hi: span.hi,
            }
        } else {
            Span {
                lo: span.lo,
                hi: mid.n,
            }
        }
    }

    // One step is left.
    fn bisected(self) -> Span
        ensures { result ≡ bisected_of self.p }
    {
        let mut span = Span { lo: 0, hi: MOST };
        for _ in 0..HALVINGS {
            span = self.halved(span);
        }
        span
    }

    // The end that is nearer: what lo is short of the tangent, and what hi is past it. At 45 degrees the fixed-point sine is two steps less than the
    // cosine, so the tangent 1 is passed only with these added.
    fn nearer(self, span: Span) -> Octant
        requires { span ≡ bisected_of self.p }
        ensures { result.n ≡ nearer_of self.p span }
    {
        let lo = Octant { n: span.lo };
        let hi = Octant { n: span.hi };
        let short = lo.run(self) - lo.rise();
        let past = hi.rise() + 2 * TANGENT_ONE - hi.run(self);
        if short <= past { lo } else { hi }
    }

    #[tactic(auto, unfolding(crate::specs::Octant::octant_of))]
    pub(crate) fn octant(self) -> Octant
        ensures { result.n ≡ octant_of self.p }
    {
        let n = self.guess();
        if self.is_level(n) {
            return Octant { n };
        }
        self.nearer(self.bisected())
    }
}
