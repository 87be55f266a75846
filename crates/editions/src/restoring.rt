// A recorded offset set into the bias estimator from a record of either edition. The settings of the second are checked, and not set.
ghost use Rattle.std.specs.Prelude.{◌≤◌, ◌≡◌, length};
ghost use Rattle.editions.specs.Move.{down_of};
ghost use Rattle.editions.specs.Restore.{Restores};

use super::moving::put_part;
use super::{FIRST, check_edition, edition_of};
use answer::Change;
use bias::Bias;

// The offset's part as a record of the first edition.
fn lowered(bytes: &[u8]) -> [u8; offset::LENGTH]
    requires { 18 ≤ length bytes.now }
    ensures { result ≡ down_of bytes.now }
{
    let mut first = [0u8; offset::LENGTH];
    put_part(bytes, FIRST.layout.version, &mut first);
    first
}

// Sets the recorded offset, in the frame of `mounting`, and nothing else; a refused call leaves the state as it was.
pub fn restore(bias: Bias, bytes: &[u8], mounting: u8) -> Change<Bias>
    ensures { Restores bias bytes.now mounting result }
{
    let edition = edition_of(bytes.len());
    if let Err(refusal) = check_edition(bytes, edition, mounting, bias.is_finite()) {
        return Change::refused(bias, refusal);
    }
    offset::restore(bias, &lowered(bytes), mounting)
}
