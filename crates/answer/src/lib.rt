// What a call answers: a refusal by the table, or what it gives; beside it the state, where the call has one.
#![tactic(auto)]

ghost use Rattle.std.specs.Prelude.{◌≡◌};
ghost use Rattle.answer.specs.Answers.{number_of};
ghost use Rattle.answer.specs.Rows.{number_in};

pub mod change; // change.rt: the state beside a result, or beside an answer
pub mod refusal; // refusal.rt: the refusal table

pub use change::{Change, Reading};
pub use refusal::{Refusal, number_in};

// The corrected rates, the turned vector or the new orientation, or a refusal. No Result: the project asks for one enum with a case for the
// refusal; `check` makes a Result of it.
#[derive(Clone, Copy, Debug, PartialEq)]
pub enum Answer {
    Rates(f32, f32, f32),
    Turned(f32, f32, f32),
    Oriented(f32, f32, f32, f32),
    Refused(Refusal),
}

impl Answer {
    // The number of the refusal table: 0 for every answer that is no refusal.
    pub fn number(self) -> u8
        ensures { result ≡ number_of self }
    {
        match self {
            Answer::Refused(refusal) => refusal.number(),
            Answer::Rates(_, _, _) => 0,
            Answer::Turned(_, _, _) => 0,
            Answer::Oriented(_, _, _, _) => 0,
        }
    }

    // Whether it is a refusal, as a result: for `?`, and for a call that answers nothing else.
    pub fn check(self) -> Result<(), Refusal>
        ensures { number_in result ≡ number_of self }
    {
        match self {
            Answer::Refused(refusal) => Err(refusal),
            Answer::Rates(_, _, _) => Ok(()),
            Answer::Turned(_, _, _) => Ok(()),
            Answer::Oriented(_, _, _, _) => Ok(()),
        }
    }
}
