// An owner of the table that lends it for one call of the foot: what is above it needs no reference. Both are one call of the foot's own, and stand
// since each has a promise of its own (`FootChooses` and `FootRewrites`, of the table that comes back).
ghost use Rattle.table.specs.Sides.{FootChooses, FootRewrites};

use super::Table;
use super::foot::{Foot, Side};
use ahrs::Settings;
use answer::Change;

// The table after a rewrite by its owner, and what that gives.
#[derive(Clone, Copy, Debug, PartialEq)]
pub struct Owned {
    pub table: Table,
    pub stood: Change<Foot>,
}

pub fn choose_owned(table: Table, foot: Foot, side: Side, row: u8) -> Change<Foot>
    ensures { FootChooses table foot side row result }
{
    foot.choose(&table, side, row)
}

pub fn rewrite_owned(mut table: Table, foot: Foot, side: Side, settings: Settings) -> Owned
    ensures { FootRewrites table foot side settings result.table result.stood }
{
    let stood = foot.rewrite(&mut table, side, settings);
    Owned { table, stood }
}
