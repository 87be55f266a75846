// The mountings program without its reads and writes. A line of input is two names with one space between; what is
// printed for it is the name of "first then second", or a refusal. The bytes are fed one by one, so that where the
// input is cut into parts changes nothing.
#![tactic(auto)]

ghost use Rattle.std.specs.Prelude.{◌≡◌, ◌+◌, ◌≤◌, length};
ghost use Rattle.text.specs.Putting.{Puts};
ghost use Rattle.lines.specs.Rule.{answer_of, text_of};
ghost use Rattle.lines.specs.Machine.{fresh_line, kept_of, print_of};
ghost use Rattle.lines.specs.Feeding.{PartFed, LastFed};
ghost use Rattle.lines.specs.Inner.{Printable, Takes};

use answer::Refusal;
use remap::Mounting;

// The bytes of a line that is not ended, at most 13 of them; n is how many came, 14 for any more. It is no slice or vector: n goes past
// the bytes, and `feed` promises what any line leaves.
#[derive(Clone, Copy, Debug, PartialEq, Eq)]
pub struct Line {
    pub n: usize,
    pub text: [u8; 13],
}

// The line that is not ended, how many bytes are to be printed, and whether the call was refused. The bytes are in the caller's buffer: a
// slice of it here would keep it lent.
#[derive(Clone, Copy, Debug, PartialEq, Eq)]
pub struct Fed {
    pub line: Line,
    pub n: usize,
    pub result: Result<(), Refusal>,
}

// The start of a line.
#[tactic(auto, unfolding(crate::specs::Machine::fresh_line))]
pub fn fresh() -> Line
    ensures { result ≡ fresh_line }
{
    Line {
        n: 0,
        text: [0; 13],
    }
}

// Puts an answer's line at the start of `out`; how many bytes it is.
fn put(answer: Result<u8, Refusal>, out: &mut [u8]) -> usize
    requires printable { Printable answer }
    requires in_bounds { 10 ≤ length out.old }
    ensures { Puts (text_of answer) out.old out.new result }
{
    match answer {
        Ok(number) => {
            let mounting = Mounting { number };
            out[..6].copy_from_slice(&mounting.name());
            out[6] = b'\n';
            7
        }
        Err(refusal) => text::put_refused(refusal.number(), out),
    }
}

impl Line {
    // The answer to the line.
    fn answer(self) -> Result<u8, Refusal>
        ensures { result ≡ answer_of self.n self.text }
    {
        let text = self.text;
        if (self.n != 13) | (text[6] != b' ') {
            return Err(Refusal::Length);
        }
        let first = remap::read_name(&text[..6])?;
        let second = remap::read_name(&text[7..13])?;
        remap::compose(first, second)
    }

    // The line after one byte more.
    #[tactic(auto, using(crate::proofs::Keeping::ended, crate::proofs::Keeping::stored, crate::proofs::Keeping::counted))]
    fn kept(self, byte: u8) -> Line
        ensures { result ≡ kept_of self byte }
    {
        if byte == b'\n' {
            return fresh();
        }
        let n = self.n;
        let mut text = self.text;
        if n < 13 {
            text[n] = byte;
            return Line { n: n + 1, text };
        }
        Line { n: 14, text }
    }

    // What a byte prints: a newline, the answer to the line that it ends; any other, nothing.
    fn print(self, byte: u8, out: &mut [u8]) -> usize
        requires { 10 ≤ length out.old }
        ensures { Puts (print_of self byte) out.old out.new result }
    {
        if byte != b'\n' {
            return 0;
        }
        put(self.answer(), out)
    }
}

impl Fed {
    // After one byte more, whose text goes behind that of the bytes before.
    fn take_byte(self, byte: u8, out: &mut [u8]) -> Fed
        requires { self.n + 10 ≤ length out.old }
        ensures { Takes self byte out.old out.new result }
    {
        let at = self.n;
        let n = at + self.line.print(byte, &mut out[at..]);
        Fed {
            line: self.line.kept(byte),
            n,
            result: Ok(()),
        }
    }
}

// Feeds a part of the input, and puts what it prints at the start of `out`, which has room for 10 bytes for each.
pub fn feed(line: Line, part: &[u8], out: &mut [u8]) -> Fed
    ensures { PartFed line part.now out.old out.new result }
{
    if part.len() > out.len() / 10 {
        return Fed {
            line,
            n: 0,
            result: Err(Refusal::Length),
        };
    }
    let mut fed = Fed {
        line,
        n: 0,
        result: Ok(()),
    };
    for &byte in part {
        fed = fed.take_byte(byte, out);
    }
    fed
}

// The end of the input: a last line without newline counts unless empty.
pub fn last(line: Line, out: &mut [u8]) -> Fed
    ensures { LastFed line out.old out.new result }
{
    if out.len() < 10 {
        return Fed {
            line,
            n: 0,
            result: Err(Refusal::Length),
        };
    }
    let n = if line.n == 0 {
        0
    } else {
        put(line.answer(), out)
    };
    Fed {
        line: fresh(),
        n,
        result: Ok(()),
    }
}
