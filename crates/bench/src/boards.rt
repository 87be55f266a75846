// Two boards and one table: a party by value, told what a row holds and which row the other uses; then both, and the table of their owner.
use super::filter;
use super::show::{Bits, Out};
use ahrs::{Limit, Settings};
use answer::Change;
use std::fmt::{self, Write};
use table::{Foot, Owned, Party, Side, Table, choose_owned, rewrite_owned};

fn of_gain(gain: f32) -> Settings {
    filter::settings(100.0, gain, 5.0)
}

// A gain that is a NaN, and a convention that is none.
fn not_finite() -> Settings {
    of_gain(wire::float_of(0x7fc0_0000))
}

fn unknown() -> Settings {
    Settings {
        convention: 3,
        ..of_gain(0.75)
    }
}

// A row whose limits are angles.
fn in_degrees(angle: f32) -> Settings {
    Settings {
        acceleration_rejection: Limit::Degrees(angle),
        magnetic_rejection: Limit::Degrees(angle),
        ..of_gain(1.0)
    }
}

fn gain_of(party: Party) -> Bits {
    Bits(party.filter.settings.gain)
}

fn print_settled(name: &str, settled: Change<Party>) -> fmt::Result {
    let number = answer::number_in(settled.result);
    let party = settled.state;
    writeln!(
        Out,
        "{name}, answer {number}: row {}, gain{}",
        party.row,
        gain_of(party)
    )
}

// The other uses row 1, which may be chosen too; where a choice is refused the old row stays in use.
fn print_own(first: Party) -> fmt::Result {
    print_settled("row 8 chosen", first.choose(8, of_gain(0.25)))?;
    print_settled("a row with a NaN chosen", first.choose(2, not_finite()))?;
    print_settled("row 1 chosen", first.choose(1, of_gain(0.25)))?;
    print_settled(
        "a row of 10 degrees chosen",
        first.choose(2, in_degrees(10.0)),
    )?;
    print_settled(
        "a row of 91 degrees chosen",
        first.choose(2, in_degrees(91.0)),
    )?;
    print_settled("row 0 rewritten", first.rewrite(1, of_gain(0.75)))?;
    print_settled("row 0 rewritten with a NaN", first.rewrite(1, not_finite()))
}

// 4 comes before 10, and 10 before 5.
fn print_shared(party: Party) -> fmt::Result {
    let row = party.row;
    let given = of_gain(0.75);
    print_settled("a shared row rewritten", party.rewrite(row, given))?;
    let refused = party.rewrite(row, not_finite());
    print_settled("a shared row rewritten with a NaN", refused)?;
    let refused = party.rewrite(row, unknown());
    print_settled("a shared row rewritten with convention 3", refused)?;
    let mut filter = party.filter;
    filter.settings = unknown();
    let refused = Party { filter, row }.rewrite(row, given);
    print_settled("a shared row rewritten from convention 3", refused)
}

// No call leads to a row above 7, but a party may be handed in so.
fn print_outside(party: Party) -> fmt::Result {
    let outside = Party {
        filter: party.filter,
        row: 8,
    };
    let given = of_gain(0.75);
    print_settled(
        "row 8 in use and shared, rewritten",
        outside.rewrite(8, given),
    )?;
    print_settled("row 8 in use, row 0 chosen", outside.choose(0, given))
}

// What the table has in the row that a party then uses.
fn print_stood(name: &str, side: Side, stood: Change<Foot>, table: Table) -> fmt::Result {
    let number = answer::number_in(stood.result);
    let party = stood.state.party(side);
    let row = party.row;
    let has = Bits(table.rows[(row % 8) as usize].gain);
    writeln!(
        Out,
        "{name}, answer {number}: row {row}, gain{}, the table has{has}",
        gain_of(party)
    )
}

fn chosen(name: &str, table: Table, foot: Foot, side: Side, row: u8) -> Result<Foot, fmt::Error> {
    let stood = choose_owned(table, foot, side, row);
    print_stood(name, side, stood, table)?;
    Ok(stood.state)
}

// The second's, of the row that it uses.
fn rewritten(
    name: &str,
    table: Table,
    foot: Foot,
    settings: Settings,
) -> Result<Owned, fmt::Error> {
    let own = rewrite_owned(table, foot, Side::Second, settings);
    print_stood(name, Side::Second, own.stood, own.table)?;
    Ok(own)
}

// The first moves to the second's row and keeps it from being rewritten; the second moves on, and the first sees what it wrote.
fn print_table(table: Table, foot: Foot) -> fmt::Result {
    let both = chosen("first chooses row 1", table, foot, Side::First, 1)?;
    rewritten(
        "second rewrites row 1 with a NaN",
        table,
        both,
        not_finite(),
    )?;
    let apart = chosen("second chooses row 2", table, both, Side::Second, 2)?;
    let own = rewritten("second rewrites row 2", table, apart, of_gain(1.0))?;
    let foot = own.stood.state;
    rewritten(
        "second rewrites row 2 with a NaN",
        own.table,
        foot,
        not_finite(),
    )?;
    chosen("first chooses row 2", own.table, foot, Side::First, 2)?;
    Ok(())
}

// The rows that no party has written hold a gain of 0.25, and row 1 one of 0.75.
pub(crate) fn print() -> fmt::Result {
    let Ok(first) = Party::first(of_gain(0.5)) else {
        return Ok(());
    };
    let Ok(second) = Party::second(of_gain(0.5)) else {
        return Ok(());
    };
    writeln!(
        Out,
        "first party: row {}, gain{}",
        first.row,
        gain_of(first)
    )?;
    writeln!(
        Out,
        "second party: row {}, gain{}",
        second.row,
        gain_of(second)
    )?;
    print_own(first)?;
    print_shared(first)?;
    print_outside(first)?;
    let mut rows = [of_gain(0.25); 8];
    rows[1] = of_gain(0.75);
    print_table(Table { rows }, Foot { first, second })
}
