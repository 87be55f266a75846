// A vector has 24 bytes, six words with the low byte first: its kind, two floats, the number of the refusal or 0, and the least and the
// greatest float that may be the answer. A call of one float is given the first, the angle of a point y and x.
ghost use Rattle.std.specs.Prelude.{◌≡◌};
ghost use Rattle.degrees.specs.Vectors.{answer_right, lies_between, angle_right, code_of, kind_of, right_of};

use answer::Refusal;

// Angles go round from 180 degrees to just above -180.
const HALF_TURN: f32 = 180.0;

// Which call a vector is for: the squared limit is of a rejection angle, the angle of a point.
#[derive(Clone, Copy, Debug, PartialEq, Eq)]
pub(crate) enum Kind {
    Sine,
    Cosine,
    Limit,
    Angle,
    Unknown,
}

impl Kind {
    pub(crate) const ALL: [Kind; 5] = [
        Kind::Sine,
        Kind::Cosine,
        Kind::Limit,
        Kind::Angle,
        Kind::Unknown,
    ];

    #[tactic(auto, unfolding(crate::specs::Vectors::kind_of))]
    pub(crate) fn of(v: &[u8]) -> Kind
        ensures { code_of result ≡ kind_of v.now }
    {
        match wire::bits_at(v, 0) {
            0 => Kind::Sine,
            1 => Kind::Cosine,
            2 => Kind::Limit,
            3 => Kind::Angle,
            _ => Kind::Unknown,
        }
    }

    pub(crate) fn name(self) -> &'static str {
        match self {
            Kind::Sine => "sines",
            Kind::Cosine => "cosines",
            Kind::Limit => "limits",
            Kind::Angle => "angles",
            Kind::Unknown => "unknown",
        }
    }
}

// What the answer may be, as a vector's words say it: the refusal of a number, or for 0 a float from the least to the greatest.
#[derive(Clone, Copy, Debug)]
struct Expected {
    number: u32,
    least: f32,
    greatest: f32,
}

impl Expected {
    fn takes(self, answer: Result<f32, Refusal>) -> bool
        ensures { result ≡ answer_right answer self.number self.least self.greatest }
    {
        match answer {
            Ok(v) => (self.number == 0) & (self.least <= v) & (v <= self.greatest),
            Err(refusal) => u32::from(refusal.number()) == self.number,
        }
    }

    // Whether an angle lies on the way from the least on to the greatest, which goes by 180 degrees where the least is above the greatest.
    fn goes_by(self, angle: f32) -> bool
        ensures { result ≡ lies_between angle self.least self.greatest }
    {
        let inside = (-HALF_TURN < angle) & (angle <= HALF_TURN);
        if self.least <= self.greatest {
            return inside & (self.least <= angle) & (angle <= self.greatest);
        }
        inside & ((self.least <= angle) | (angle <= self.greatest))
    }

    fn takes_angle(self, answer: Result<f32, Refusal>) -> bool
        ensures { result ≡ angle_right answer self.number self.least self.greatest }
    {
        match answer {
            Ok(v) => (self.number == 0) & self.goes_by(v),
            Err(refusal) => u32::from(refusal.number()) == self.number,
        }
    }
}

#[tactic(auto, unfolding(crate::specs::Vectors::kind_right))]
pub(crate) fn is_right(v: &[u8]) -> bool
    ensures { result ≡ right_of v.now }
{
    let x = wire::float_of(wire::bits_at(v, 4));
    let other = wire::float_of(wire::bits_at(v, 8));
    let expected = Expected {
        number: wire::bits_at(v, 12),
        least: wire::float_of(wire::bits_at(v, 16)),
        greatest: wire::float_of(wire::bits_at(v, 20)),
    };
    match Kind::of(v) {
        Kind::Sine => expected.takes(trig::sin_degrees(x)),
        Kind::Cosine => expected.takes(trig::cos_degrees(x)),
        Kind::Limit => expected.takes(Ok(trig::rejection_threshold(x))),
        Kind::Angle => expected.takes_angle(trig::angle_degrees(x, other)),
        Kind::Unknown => false,
    }
}
