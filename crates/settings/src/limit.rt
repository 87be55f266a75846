// The limit of one sensor, as it was given: beyond it a reading is rejected.
ghost use Rattle.std.specs.Prelude.{◌≡◌};
ghost use Rattle.settings.specs.Limit.{given_of, finite_limit, sound_limit, squared_of};

// A squared half residual, or the Rust's angle in degrees.
#[derive(Clone, Copy, Debug, PartialEq)]
pub enum Limit {
    Squared(f32),
    Degrees(f32),
}

const RIGHT_ANGLE: f32 = 90.0;

// The two numbers of a limit are methods and no From: either could be the f32 that it becomes.
impl Limit {
    // The number that was given, of either kind.
    pub fn given(self) -> f32
        ensures { result ≡ given_of self }
    {
        match self {
            Limit::Squared(squared) => squared,
            Limit::Degrees(degrees) => degrees,
        }
    }

    pub fn is_finite(self) -> bool
        ensures { result ≡ finite_limit self }
    {
        number::is_finite(self.given())
    }

    // A squared limit that is not below 0, an angle from 0 to 90.
    pub fn is_sound(self) -> bool
        ensures { result ≡ sound_limit self }
    {
        match self {
            Limit::Squared(squared) => !(squared < 0.0),
            Limit::Degrees(degrees) => (0.0 <= degrees) & (degrees <= RIGHT_ANGLE),
        }
    }

    // The squared limit that it stands for.
    pub fn squared(self) -> f32
        ensures { result ≡ squared_of self }
    {
        match self {
            Limit::Squared(squared) => squared,
            Limit::Degrees(degrees) => trig::rejection_threshold(degrees),
        }
    }
}
