// The words of a buffer that a call lent, as it is afterwards. One of more than 64 words is not lent: its call is refused with 1.
use super::said;
use super::said::Said;
use super::words::{MOST, Words};
use answer::Refusal;

// The bytes of the longest buffer.
const BYTES: usize = 256;

// Bytes packed four to a word, the last filled with zeros.
fn packed(bytes: &[u8]) -> Words {
    let mut words = Words::none();
    for chunk in bytes.chunks(4) {
        words = words.with(wire::bits_at(chunk, 0));
    }
    words
}

// A buffer of n bytes, lent to what writes into it.
pub(crate) fn bytes<F: FnOnce(&mut [u8]) -> Result<(), Refusal>>(n: usize, write: F) -> Said
    requires { F.IsAlwaysCallable write }
{
    if n > BYTES {
        return said::refused(Refusal::Length);
    }
    let mut buffer = [0x2Au8; 256];
    let result = write(&mut buffer[..n]);
    Said {
        result,
        words: packed(&buffer[..n]),
    }
}

// And one of n floats.
pub(crate) fn floats<F: FnOnce(&mut [f32]) -> Result<(), Refusal>>(n: usize, write: F) -> Said
    requires { F.IsAlwaysCallable write }
{
    if n > MOST {
        return said::refused(Refusal::Length);
    }
    let mut buffer = [1.0f32; 64];
    let result = write(&mut buffer[..n]);
    let mut words = Words::none();
    for x in &buffer[..n] {
        words = words.with(*x);
    }
    Said { result, words }
}
