// A choice and a rewrite by value: of the table they are told what the row holds, and of the other party the row that it uses.
ghost use Rattle.table.specs.Calls.{Settles, Chosen, Resettles};

use super::Party;
use ahrs::Settings;
use answer::{Change, Refusal};

const LAST_ROW: u8 = 7;

impl Party {
    // Settings set as `set_settings` sets them, and the row that has them; a refusal leaves both.
    #[tactic(auto, unfolding(crate::specs::Calls::settled_of))]
    fn settle(self, settings: Settings, row: u8) -> Change<Party>
        ensures { Settles self settings row result }
    {
        let change = self.filter.set_settings(settings);
        if let Err(refusal) = change.result {
            return Change::refused(self, refusal);
        }
        Change::made(Party {
            filter: change.state,
            row,
        })
    }

    // Any row may be chosen, one that the other uses too; `settings` is what it holds.
    #[tactic(auto, unfolding(answer::specs::Refusals::refusal_of))]
    pub fn choose(self, row: u8, settings: Settings) -> Change<Party>
        ensures { Chosen settings self row result }
    {
        if (row > LAST_ROW) | (self.row > LAST_ROW) {
            return Change::refused(self, Refusal::Unknown);
        }
        self.settle(settings, row)
    }

    // The row in use gets other settings, unless the other party uses it too.
    #[tactic(auto, unfolding(answer::specs::Refusals::refusal_of))]
    pub fn rewrite(self, other: u8, settings: Settings) -> Change<Party>
        ensures { Resettles other self settings result }
    {
        if (self.row > LAST_ROW) | !(self.filter.settings.is_known() & settings.is_known()) {
            return Change::refused(self, Refusal::Unknown);
        }
        if self.row == other {
            return Change::refused(self, Refusal::Shared);
        }
        self.settle(settings, self.row)
    }
}
