// The offset record in two editions: the 18 bytes of `offset`, and 34 bytes with the estimator's settings behind them. A record is moved from
// one to the other, and restored from either.
#![tactic(auto)]

pub mod moving; // moving.rt: move_up, move_down
pub mod restoring; // restoring.rt: restore

ghost use Rattle.std.specs.Prelude.{◌≡◌};
ghost use Rattle.answer.specs.Refusals.{refusal_of};
ghost use Rattle.answer.specs.Rows.{number_in};
ghost use Rattle.editions.specs.Edition.{settings_at, edition_of, edition_checks};

use answer::Refusal;
use bias::BiasSettings;
pub use moving::{move_down, move_up};
use offset::Layout;
pub use restoring::restore;

// An edition: what its records are held to, and whether settings stand behind the offset's part. A flag and no enum of the two: every rule
// here is one rule over both (`edition_checks`), and an enum would need a match for the layout and one for the settings.
#[derive(Clone, Copy, Debug, PartialEq, Eq)]
struct Edition {
    layout: Layout,
    settings: bool,
}

const FIRST: Edition = Edition {
    layout: offset::LAYOUT,
    settings: false,
};

const SECOND: Edition = Edition {
    layout: Layout {
        size: 34,
        version: 2,
    },
    settings: true,
};

// The edition that bytes are held to: that of their length, and of any other length the first, which refuses them for it.
fn edition_of(size: usize) -> Edition
    ensures { result ≡ edition_of size }
{
    if size == SECOND.layout.size {
        SECOND
    } else {
        FIRST
    }
}

// The settings that stand behind the offset's part.
#[tactic(auto, unfolding(crate::specs::Edition::settings_at))]
fn settings_at(bytes: &[u8]) -> BiasSettings
    ensures { result ≡ settings_at bytes.now }
{
    BiasSettings {
        sample_rate: wire::float_at(bytes, 18),
        cutoff_frequency: wire::float_at(bytes, 22),
        stationary_threshold: wire::float_at(bytes, 26),
        stationary_period: wire::float_at(bytes, 30),
    }
}

// A record's checks by an edition: the offset's part, then the settings as when they are given to the estimator.
fn check_edition(bytes: &[u8], edition: Edition, mounting: u8, finite: bool) -> Result<(), Refusal>
    ensures { number_in result ≡ refusal_of (edition_checks edition bytes.now mounting finite) }
{
    offset::check_record(bytes, edition.layout, mounting, finite)?;
    if !edition.settings {
        return Ok(());
    }
    settings_at(bytes).check()
}
