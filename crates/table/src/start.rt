// A start: the filter's own, on the row of its place. `first` and `second` are `started` at a row, and stand by their names, since each promises its row.
ghost use Rattle.table.specs.Calls.{Starts};

use super::Party;
use ahrs::{Ahrs, Settings};
use answer::Refusal;

impl Party {
    fn started(settings: Settings, row: u8) -> Result<Party, Refusal>
        ensures { Starts row settings result }
    {
        let filter = Ahrs::with_settings(settings)?;
        Ok(Party { filter, row })
    }

    // The first party uses row 0, with the settings that it is made with.
    pub fn first(settings: Settings) -> Result<Party, Refusal>
        ensures { Starts 0 settings result }
    {
        Party::started(settings, 0)
    }

    // The second uses row 1.
    pub fn second(settings: Settings) -> Result<Party, Refusal>
        ensures { Starts 1 settings result }
    {
        Party::started(settings, 1)
    }
}
