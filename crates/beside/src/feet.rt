// The calls of two filters and the table of settings that both read: A0 to A4.
use super::filters::squared_at;
use super::record::{Record, choice_at, vector_at};
use super::said;
use super::said::Told;
use super::words::Words;
use ahrs::{Limit, Settings};
use answer::{Change, Refusal};
use table::{Foot, Party, Side, Table};

// The third state that calls change: of the parties those of which a start was accepted.
#[derive(Clone, Copy)]
pub(crate) struct Feet {
    table: Table,
    first: Option<Party>,
    second: Option<Party>,
}

// The rows of a table.
const ROWS: u8 = 8;

// What a party that has not started uses: no row of the table. A foot has two parties, so that one stands there.
const NO_ROW: u8 = 255;

// The party that calls; a number above 1 is none.
fn side_at(record: &Record) -> Option<Side> {
    match choice_at(record, 1) {
        0 => Some(Side::First),
        1 => Some(Side::Second),
        _ => None,
    }
}

impl Feet {
    // Before a row is filled it holds zeros.
    pub(crate) fn none() -> Feet {
        let zeros = Settings {
            sample_rate: 0.0,
            convention: 0,
            gain: 0.0,
            gyroscope_range: 0.0,
            acceleration_rejection: Limit::Squared(0.0),
            magnetic_rejection: Limit::Squared(0.0),
            rejection_timeout: 0.0,
        };
        Feet {
            table: Table { rows: [zeros; 8] },
            first: None,
            second: None,
        }
    }

    fn party(self, side: Side) -> Option<Party> {
        match side {
            Side::First => self.first,
            Side::Second => self.second,
        }
    }

    fn with_party(self, side: Side, party: Option<Party>) -> Feet {
        match side {
            Side::First => Feet {
                first: party,
                ..self
            },
            Side::Second => Feet {
                second: party,
                ..self
            },
        }
    }

    // In the place of a party that has not started stands the one that calls, on no row.
    fn foot(self, caller: Party) -> Foot {
        let other = Party {
            filter: caller.filter,
            row: NO_ROW,
        };
        Foot {
            first: self.first.unwrap_or(other),
            second: self.second.unwrap_or(other),
        }
    }

    // After a choice or a rewrite by one party.
    fn stood(self, side: Side, stood: Change<Foot>) -> Told<Feet> {
        Told {
            state: self.with_party(side, Some(stood.state.party(side))),
            said: said::plain(stood.result),
        }
    }

    fn plain(self, outcome: Result<(), Refusal>) -> Told<Feet> {
        Told {
            state: self,
            said: said::plain(outcome),
        }
    }
}

// The state as a line shows it: the row of the party that called, its filter, and what the table has in that row; none before its start.
pub(crate) fn words(feet: Feet, call: u32, record: &Record) -> Option<Words> {
    if call == 0xA0 {
        return None;
    }
    let party = feet.party(side_at(record)?)?;
    let row = feet.table.rows[(party.row % ROWS) as usize];
    Some(Words::none().with(party.row).with(party.filter).with(row))
}

// Filling a row is no call of a party; nothing of what it is filled with is looked at.
fn fill(mut feet: Feet, record: &Record) -> Told<Feet> {
    let row = choice_at(record, 1);
    if row >= ROWS {
        return feet.plain(Err(Refusal::Length));
    }
    feet.table.rows[row as usize] = squared_at(record, 2);
    feet.plain(Ok(()))
}

// A start; one that is refused leaves the party that was.
fn start(feet: Feet, side: Side, settings: Settings) -> Told<Feet> {
    let start = match side {
        Side::First => Party::first(settings),
        Side::Second => Party::second(settings),
    };
    let told = said::started(feet.party(side), start);
    Told {
        state: feet.with_party(side, told.state),
        said: told.said,
    }
}

fn choose(feet: Feet, side: Side, party: Party, row: u8) -> Told<Feet> {
    feet.stood(
        side,
        table::choose_owned(feet.table, feet.foot(party), side, row),
    )
}

fn rewrite(feet: Feet, side: Side, party: Party, settings: Settings) -> Told<Feet> {
    let owned = table::rewrite_owned(feet.table, feet.foot(party), side, settings);
    let written = Feet {
        table: owned.table,
        ..feet
    };
    written.stood(side, owned.stood)
}

fn update(feet: Feet, side: Side, party: Party, record: &Record) -> Told<Feet> {
    let gyroscope = vector_at(record, 2);
    let accelerometer = vector_at(record, 5);
    let magnetometer = vector_at(record, 8);
    let reading = party.filter.update(gyroscope, accelerometer, magnetometer);
    let foot = feet.foot(party).with_filter(side, reading.state);
    Told {
        state: feet.with_party(side, Some(foot.party(side))),
        said: said::answer(reading.answer),
    }
}

// A call of a party that has not started, or that is none, is refused with 1.
fn tell(feet: Feet, call: u32, side: Side, record: &Record) -> Told<Feet> {
    match (call, feet.party(side)) {
        (0xA1, _) => start(feet, side, squared_at(record, 2)),
        (0xA2, Some(party)) => choose(feet, side, party, choice_at(record, 2)),
        (0xA3, Some(party)) => rewrite(feet, side, party, squared_at(record, 2)),
        (0xA4, Some(party)) => update(feet, side, party, record),
        (_, _) => feet.plain(Err(Refusal::Length)),
    }
}

pub(crate) fn answer(feet: Feet, call: u32, record: &Record) -> Told<Feet> {
    if call == 0xA0 {
        return fill(feet, record);
    }
    match side_at(record) {
        Some(side) => tell(feet, call, side, record),
        None => feet.plain(Err(Refusal::Length)),
    }
}
