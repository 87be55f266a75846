// What a call says: whether it is refused, and the words of its answer.
use super::words::{Worded, Words};
use answer::{Answer, Change, Reading, Refusal};
use math::Quaternion;
use vector::Vector;

#[derive(Clone, Copy, Debug)]
pub(crate) struct Said {
    pub result: Result<(), Refusal>,
    pub words: Words,
}

pub(crate) fn refused(refusal: Refusal) -> Said {
    plain(Err(refusal))
}

// A result without words.
pub(crate) fn plain(outcome: Result<(), Refusal>) -> Said {
    Said {
        result: outcome,
        words: Words::none(),
    }
}

// The answer of a call that refuses nothing.
pub(crate) fn of<T: Worded>(value: T) -> Said {
    Said {
        result: Ok(()),
        words: Words::none().with(value),
    }
}

// What a read gives.
pub(crate) fn read<T: Worded>(read: Result<T, Refusal>) -> Said {
    match read {
        Ok(value) => of(value),
        Err(refusal) => refused(refusal),
    }
}

pub(crate) fn answer(answer: Answer) -> Said {
    match answer {
        Answer::Rates(x, y, z) => of(Vector::new(x, y, z)),
        Answer::Turned(x, y, z) => of(Vector::new(x, y, z)),
        Answer::Oriented(w, x, y, z) => of(Quaternion::new(w, x, y, z)),
        Answer::Refused(refusal) => refused(refusal),
    }
}

// The state after a call, and what the call says.
#[derive(Clone, Copy)]
pub(crate) struct Told<S> {
    pub state: S,
    pub said: Said,
}

pub(crate) fn changed<S>(change: Change<S>) -> Told<S> {
    Told {
        state: change.state,
        said: plain(change.result),
    }
}

pub(crate) fn answered<S>(reading: Reading<S>) -> Told<S> {
    Told {
        state: reading.state,
        said: answer(reading.answer),
    }
}

// A start; one that is refused leaves the state that was, where there was one.
pub(crate) fn started<S: Copy>(before: Option<S>, start: Result<S, Refusal>) -> Told<Option<S>> {
    match start {
        Ok(fresh) => Told {
            state: Some(fresh),
            said: plain(Ok(())),
        },
        Err(refusal) => Told {
            state: before,
            said: refused(refusal),
        },
    }
}

// The same state where there may be none.
pub(crate) fn begun<S: Copy>(told: Told<S>) -> Told<Option<S>> {
    Told {
        state: Some(told.state),
        said: told.said,
    }
}

// Before a start was accepted every other call is refused with 1.
pub(crate) fn not_begun<S>() -> Told<Option<S>> {
    Told {
        state: None,
        said: refused(Refusal::Length),
    }
}
