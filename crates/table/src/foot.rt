// The foot: both parties, and a side for each call, so that a rewrite is told the row that the other party truly uses.
ghost use Rattle.std.specs.Prelude.{◌≡◌};
ghost use Rattle.table.specs.Sides.{other, party_of, other_row, with_party, with_filter, stood_of, FootChooses, FootRewrites};

use super::{Party, Table, choose_lent, rewrite_lent};
use ahrs::{Ahrs, Settings};
use answer::Change;

#[derive(Clone, Copy, Debug, PartialEq, Eq)]
pub enum Side {
    First,
    Second,
}

impl Side {
    pub fn other(self) -> Side
        ensures { result ≡ other self }
    {
        match self {
            Side::First => Side::Second,
            Side::Second => Side::First,
        }
    }
}

// Two named fields and no array: a side is told apart where a party is read and where it is put back, and nowhere else.
#[derive(Clone, Copy, Debug, PartialEq)]
pub struct Foot {
    pub first: Party,
    pub second: Party,
}

impl Foot {
    pub fn party(self, side: Side) -> Party
        ensures { result ≡ party_of side self }
    {
        match side {
            Side::First => self.first,
            Side::Second => self.second,
        }
    }

    // The row that the other party uses.
    fn other_row(self, side: Side) -> u8
        ensures { result ≡ other_row side self }
    {
        self.party(side.other()).row
    }

    fn with_party(self, side: Side, party: Party) -> Foot
        ensures { result ≡ with_party side party self }
    {
        let first = self.first;
        let second = self.second;
        match side {
            Side::First => Foot {
                first: party,
                second,
            },
            Side::Second => Foot {
                first,
                second: party,
            },
        }
    }

    // A filter after a call of its own; the rows stay.
    pub fn with_filter(self, side: Side, filter: Ahrs) -> Foot
        ensures { result ≡ with_filter side filter self }
    {
        let party = self.party(side);
        self.with_party(side, Party { filter, ..party })
    }

    // One party's change, of the foot.
    fn stood(self, side: Side, change: Change<Party>) -> Change<Foot>
        ensures { result ≡ stood_of side change self }
    {
        Change {
            state: self.with_party(side, change.state),
            result: change.result,
        }
    }

    pub fn choose(self, table: &Table, side: Side, row: u8) -> Change<Foot>
        ensures { FootChooses table.now self side row result }
    {
        let change = choose_lent(table, self.party(side), row);
        self.stood(side, change)
    }

    pub fn rewrite(self, table: &mut Table, side: Side, settings: Settings) -> Change<Foot>
        ensures { FootRewrites table.old self side settings table.new result }
    {
        let change = rewrite_lent(table, self.party(side), self.other_row(side), settings);
        self.stood(side, change)
    }
}
