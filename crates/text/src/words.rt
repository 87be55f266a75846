// A line of four words, in two halves of 18 bytes.
ghost use Rattle.std.specs.Prelude.{◌≡◌};
ghost use Rattle.text.specs.Text.{pair_of, words_of};
ghost use Rattle.text.specs.Putting.{Fits};

use super::{copy, word};

// Two words, one space apart, and what ends them: arrays are joined by their elements alone.
#[tactic(auto, unfolding(crate::specs::Text::pair_of, crate::specs::Text::word_of))]
fn pair(a: u32, b: u32, end: u8) -> [u8; 18]
    ensures { result ≡ pair_of a b end }
{
    let x = word(a);
    let y = word(b);
    [
        x[0], x[1], x[2], x[3], x[4], x[5], x[6], x[7], b' ', y[0], y[1], y[2], y[3], y[4], y[5],
        y[6], y[7], end,
    ]
}

// Four words, one space apart, and a newline, at the start of `out` where that has room for them; how many bytes were put.
pub fn put_words(a: u32, b: u32, c: u32, d: u32, out: &mut [u8]) -> usize
    ensures { Fits (words_of a b c d) out.old out.new result }
{
    if out.len() < 36 {
        return 0;
    }
    copy(&pair(a, b, b' '), out);
    copy(&pair(c, d, b'\n'), &mut out[18..]);
    36
}
