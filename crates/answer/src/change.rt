// What a call that has a state gives: the state, beside a result or beside an answer.
ghost use Rattle.std.specs.Prelude.{◌≡◌};

use super::{Answer, Refusal};

// A call that only changes the state.
#[derive(Clone, Copy, Debug, PartialEq)]
pub struct Change<S> {
    pub state: S,
    pub result: Result<(), Refusal>,
}

impl<S> Change<S> {
    pub fn made(state: S) -> Change<S>
        ensures { result ≡ record { state = state; result = Ok tt } }
    {
        Change {
            state,
            result: Ok(()),
        }
    }

    pub fn refused(state: S, refusal: Refusal) -> Change<S>
        ensures { result ≡ record { state = state; result = Err refusal } }
    {
        Change {
            state,
            result: Err(refusal),
        }
    }
}

// A call that answers floats, and may change the state.
#[derive(Clone, Copy, Debug, PartialEq)]
pub struct Reading<S> {
    pub state: S,
    pub answer: Answer,
}

impl<S> Reading<S> {
    pub fn refused(state: S, refusal: Refusal) -> Reading<S>
        ensures { result ≡ record { state = state; answer = Answer.Refused refusal } }
    {
        Reading {
            state,
            answer: Answer::Refused(refusal),
        }
    }
}
