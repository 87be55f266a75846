// A choice and a rewrite by the owner of both parties and of the table, which is copied by value around the loan. They are other callers
// of the update and of a start: those are counted in a library without this file.
use super::update::{start, update_step};
use super::{Readings, readings, told};
use ahrs::{Ahrs, Limit, Settings};
use answer::Refusal;
use table::{Foot, Party, Side, Table, choose_owned, rewrite_owned};

// What a loop carries: both parties, the table, and the sum of the gains that were set.
#[derive(Clone, Copy)]
struct Kept {
    foot: Foot,
    table: Table,
    sum: u32,
}

// The settings of a start with a gain of the log's, and no limit, so that neither side works out a sine. The log is a slice here: were its
// length known, the compiler would keep the table field by field and put it together anew for each choice.
fn row_of(settings: Settings, log: &[f32], i: u32) -> Settings {
    let mut row = settings;
    if let Some(gain) = log.get((i % 8) as usize) {
        row.gain = *gain;
        row.acceleration_rejection = Limit::Squared(number::MAX);
        row.magnetic_rejection = Limit::Squared(number::MAX);
    }
    row
}

fn table_of(settings: Settings, log: &[f32]) -> Table {
    let mut rows = [settings; 8];
    for i in 0..8u32 {
        rows[i as usize] = row_of(settings, log, i);
    }
    Table { rows }
}

fn both(state: Ahrs, log: &[f32]) -> Kept {
    Kept {
        foot: Foot {
            first: Party {
                filter: state,
                row: 0,
            },
            second: Party {
                filter: state,
                row: 1,
            },
        },
        table: table_of(state.settings, log),
        sum: 0,
    }
}

fn added(sum: u32, settings: Settings) -> u32 {
    sum.wrapping_add(wire::bits_of(settings.gain))
}

fn choice_step(kept: Kept, i: u32) -> Kept {
    let foot = choose_owned(kept.table, kept.foot, Side::First, (i % 8) as u8).state;
    Kept {
        foot,
        table: kept.table,
        sum: added(kept.sum, foot.first.filter.settings),
    }
}

// The sum is of what the table then has in the first party's row.
fn rewrite_step(kept: Kept, settings: Settings, log: &[f32], i: u32) -> Kept {
    let given = row_of(settings, log, i);
    let owned = rewrite_owned(kept.table, kept.foot, Side::First, given);
    Kept {
        foot: owned.stood.state,
        table: owned.table,
        sum: added(kept.sum, owned.table.rows[0]),
    }
}

// An update at the end, so that no compiler drops what the settings derive.
fn ended(kept: Kept, log: &Readings) -> u32 {
    let last = update_step(kept.foot.first.filter, log, 0);
    kept.sum.wrapping_add(wire::bits_of(last.quaternion.w))
}

// Each of the two loops stands by itself: a closure's copies what it carries at each step, both filters and the table.
fn choices(log: &[f32], count: u32) -> Result<u32, Refusal> {
    let state = start(log)?;
    let whole = readings(log)?;
    let mut kept = both(state, log);
    for i in 0..count {
        kept = choice_step(kept, i);
    }
    Ok(ended(kept, whole))
}

fn rewrites(log: &[f32], count: u32) -> Result<u32, Refusal> {
    let state = start(log)?;
    let whole = readings(log)?;
    let mut kept = both(state, log);
    for i in 0..count {
        kept = rewrite_step(kept, state.settings, log, i);
    }
    Ok(ended(kept, whole))
}

#[unsafe(no_mangle)]
pub extern "C" fn port_choice(log: &[f32], count: u32) -> u32 {
    told(choices(log, count))
}

#[unsafe(no_mangle)]
pub extern "C" fn port_rewrite(log: &[f32], count: u32) -> u32 {
    told(rewrites(log, count))
}
