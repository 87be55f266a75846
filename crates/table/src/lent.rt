// The table lent by its owner: for a choice to be read, for a rewrite to be written. One row of it is touched, and nothing of it is copied beside.
// The rules are the calls' by value; these look the row up (`Chooses`) and write it (`Rewrites`).
ghost use Rattle.table.specs.Calls.{Chooses, Rewrites};

use super::{Party, Table};
use ahrs::Settings;
use answer::{Change, Refusal};

#[tactic(auto, unfolding(answer::specs::Refusals::refusal_of, crate::specs::Calls::row_of))]
pub fn choose_lent(table: &Table, party: Party, row: u8) -> Change<Party>
    ensures { Chooses table.now party row result }
{
    match table.rows.get(row as usize) {
        Some(settings) => party.choose(row, *settings),
        None => Change::refused(party, Refusal::Unknown),
    }
}

#[tactic(auto, unfolding(answer::specs::Refusals::refusal_of, crate::specs::Calls::with_row))]
pub fn rewrite_lent(table: &mut Table, party: Party, other: u8, settings: Settings) -> Change<Party>
    ensures { Rewrites table.old other party settings table.new result }
{
    let change = party.rewrite(other, settings);
    if change.result.is_ok() {
        table.rows[party.row as usize] = settings;
    }
    change
}
