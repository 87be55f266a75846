// A second board in the foot: two parties, each a filter and the number of the row that it uses, and one table of eight rows of settings.
#![tactic(auto)]

use ahrs::{Ahrs, Settings};

pub mod change; // change.rt: a choice and a rewrite, by value
pub mod foot; // foot.rt: both parties, and a side for each call
pub mod lent; // lent.rt: the table lent to either
pub mod owned; // owned.rt: an owner of the table, who lends it
pub mod start; // start.rt: the first party and the second

pub use foot::{Foot, Side};
pub use lent::{choose_lent, rewrite_lent};
pub use owned::{Owned, choose_owned, rewrite_owned};

// Eight rows of settings, of any numbers: a row is judged when it is chosen.
#[derive(Clone, Copy, Debug, PartialEq)]
pub struct Table {
    pub rows: [Settings; 8],
}

// A filter, and the row that it uses.
#[derive(Clone, Copy, Debug, PartialEq)]
pub struct Party {
    pub filter: Ahrs,
    pub row: u8,
}
