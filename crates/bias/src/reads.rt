// Calls that only read the estimator's state: what they read, or the refusal of a state that is not finite.
ghost use Rattle.bias.specs.Calls.{SettingsReads, OffsetReads, ActiveReads};

use super::{Bias, BiasSettings};
use answer::Refusal;
use vector::Vector;

impl Bias {
    pub fn settings(self) -> Result<BiasSettings, Refusal>
        ensures { SettingsReads self result }
    {
        self.check()?;
        Ok(self.settings)
    }

    pub fn offset(self) -> Result<Vector, Refusal>
        ensures { OffsetReads self result }
    {
        self.check()?;
        Ok(self.offset)
    }

    // Whether the offset is being learnt.
    pub fn is_active(self) -> Result<bool, Refusal>
        ensures { ActiveReads self result }
    {
        self.check()?;
        Ok(self.timer >= self.timeout)
    }
}
