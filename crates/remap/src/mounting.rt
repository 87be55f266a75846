// A mounting by its number, which is below 24.
ghost use Rattle.std.specs.Prelude.{◌≡◌, ◌<◌};
ghost use Rattle.vector.specs.Axes.{places_of};

use answer::Refusal;

#[derive(Clone, Copy, Debug, PartialEq, Eq)]
pub struct Mounting {
    pub number: u8,
    pub ghost below: { number < 24 },
}

impl TryFrom<u8> for Mounting {
    type Error = Refusal;

    ghost use Rattle.remap.specs.Counted.{Counted};

    ghost try_from_gives = { Counted };

    #[tactic(auto, unfolding(answer::specs::Refusals::refusal_of))]
    fn try_from(number: u8) -> Result<Self, Refusal> {
        if number > 23 {
            return Err(Refusal::Unknown);
        }
        Ok(Mounting { number })
    }
}

impl Mounting {
    // What it reads for x, y and z.
    pub fn axes(self) -> u16
        ensures { result ≡ places_of self.number }
    {
        vector::axes_of(self.number).unwrap()
    }
}
