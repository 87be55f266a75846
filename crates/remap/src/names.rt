// The names of the mountings, six bytes each.
ghost use Rattle.std.specs.Prelude.{◌≡◌, ◌<◌, length};
ghost use Rattle.answer.specs.Refusals.{refusal_of};
ghost use Rattle.answer.specs.Rows.{number_in};
ghost use Rattle.remap.specs.Given.{Gives};
ghost use Rattle.remap.specs.Inner.{byte_of};
ghost use Rattle.remap.specs.Names.{name_of, same, named_by, read_checks, write_checks, NameWritten};

use super::Mounting;
use answer::Refusal;

// The k-th byte of the name of a mounting with these axes: a sign or a letter of one of them. Without a branch on the axes the
// compiler keeps them a table.
fn byte_of(axes: u16, k: usize) -> u8
    requires { k < 6 }
    ensures { result ≡ byte_of axes k }
{
    let place = ((axes >> (10 - 5 * (k / 2))) % 8) as u8;
    let minus = (place + 1) / 4;
    if k % 2 == 0 {
        b'+' + 2 * minus
    } else {
        b'X' + place - 3 * minus
    }
}

impl Mounting {
    // Its name.
    #[tactic(auto, using(crate::proofs::Naming::spelled))]
    pub fn name(self) -> [u8; 6]
        ensures { result ≡ name_of self.number }
    {
        let axes = self.axes();
        std::array::from_fn(|k| byte_of(axes, k))
    }

    // Whether six bytes are its name. By `==` of slices a read took twice the instructions, since that needs each whole name.
    fn is_named(self, name: &[u8]) -> bool
        requires { length name.now ≡ 6 }
        ensures { result ≡ same name.now (name_of self.number) }
    {
        let axes = self.axes();
        for (k, &byte) in name.iter().enumerate() {
            if byte != byte_of(axes, k) {
                return false;
            }
        }
        true
    }
}

// Writes the name of a mounting; a refused call leaves the buffer as it was.
#[tactic(auto, unfolding(answer::specs::Refusals::refusal_of))]
pub fn write_name(mounting: u8, name: &mut [u8]) -> Result<(), Refusal>
    ensures { NameWritten mounting name.old name.new (number_in result) }
{
    if name.len() != 6 {
        return Err(Refusal::Length);
    }
    let mounting = Mounting::try_from(mounting)?;
    name.copy_from_slice(&mounting.name());
    Ok(())
}

// The mounting that the bytes name.
pub fn read_name(name: &[u8]) -> Result<u8, Refusal>
    ensures { Gives (read_checks name.now) (named_by name.now) result }
{
    if name.len() != 6 {
        return Err(Refusal::Length);
    }
    for number in 0..24 {
        let mounting = Mounting { number };
        if mounting.is_named(name) {
            return Ok(number);
        }
    }
    Err(Refusal::Unknown)
}
