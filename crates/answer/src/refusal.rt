// The refusal table: why a call is refused, by the number that the table has for it.
ghost use Rattle.std.specs.Prelude.{◌≡◌};
ghost use Rattle.answer.specs.Rows.{row_of, number_in};

use std::error::Error;
use std::fmt;

#[derive(Clone, Copy, Debug, PartialEq, Eq)]
pub enum Refusal {
    // a length is wrong, or there is no room
    Length = 1,
    Mark = 2,
    Version = 3,
    // no mounting, no convention, no row has the number, or none the name
    Unknown = 4,
    // something that was given is a NaN or an infinity
    NotFinite = 5,
    OutOfRange = 6,
    // something that comes out would be a NaN or an infinity
    Overflow = 7,
    // a record does not follow the one before
    Sequence = 8,
    // an orientation is too short or too long to be set
    Norm = 9,
    // the other party uses the row too
    Shared = 10,
    // more records than are counted
    TooMany = 11,
}

impl Refusal {
    // Its number in the table.
    pub fn number(self) -> u8
        ensures { result ≡ row_of self }
    {
        self as u8
    }
}

// The number of a result: 0 where it is no refusal.
pub fn number_in(told: Result<(), Refusal>) -> u8
    ensures { result ≡ number_in told }
{
    match told {
        Ok(()) => 0,
        Err(refusal) => refusal.number(),
    }
}

impl fmt::Display for Refusal {
    fn fmt<W: fmt::Write>(&self, f: &mut fmt::Formatter<W>) -> fmt::Result {
        write!(f, "refused {}", self.number())
    }
}

impl Error for Refusal {}
