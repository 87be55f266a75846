// What the lines of a program say of its run: how many there are, and the first that is a refusal. A program's own status says nothing of
// a refusal: it is named on standard error, and ./gateweave makes the status of it.
#![tactic(auto)]

ghost use Rattle.std.specs.Prelude.{◌≡◌, ◌⊎◌, ◌≤◌, length, not, eqb};
ghost use Rattle.verdict.specs.Verdict.{no_verdict, next_of, digit_of, byte_of, verdict_of, is_refused};

use std::io::{Cursor, Error, ErrorKind, Write};

// The descriptor of standard error: what is said there is written to it, so that no caller has to lend a runtime.
const STDERR: i32 = 2;

// As the shell has it of the system's signal: 128 and the signal's number, 13.
const READER_GONE: u8 = 141;

// The lines that have ended; the first that is a refusal, and its number, both 0 where there is none; whether the number has ended.
#[derive(Clone, Copy, Debug, PartialEq, Eq)]
pub struct Verdict {
    pub lines: u64,
    pub line: u64,
    pub number: u16,
    pub ended: bool,
}

// One more, up to the largest number.
#[tactic(auto, unfolding(crate::specs::Verdict::next_of))]
fn next(n: u64) -> u64
    ensures { result ≡ next_of n }
{
    n.saturating_add(1)
}

// A line as `replay: refused 8 in record 3`.
fn name(program: &[u8], unit: &[u8], line: u64, number: u64) {
    let fd = STDERR;
    io::write_all(fd, program);
    io::write_all(fd, b": refused ");
    io::print_decimal(fd, number);
    io::write_all(fd, b" in ");
    io::write_all(fd, unit);
    io::write_all(fd, b" ");
    io::print_decimal(fd, line);
    io::write_all(fd, b"\n");
}

impl Verdict {
    pub fn none() -> Verdict
        ensures { result ≡ no_verdict }
    {
        Verdict {
            lines: 0,
            line: 0,
            number: 0,
            ended: false,
        }
    }

    // A byte once the refused line was found: the next digit of its number, of which three are read, or what ends it.
    #[tactic(auto, unfolding(crate::specs::Verdict::digit_of))]
    fn digit(self, byte: u8) -> Verdict
        ensures { result ≡ digit_of self byte }
    {
        if self.ended {
            return self;
        }
        if !byte.is_ascii_digit() {
            return Verdict {
                ended: self.number != 0,
                ..self
            };
        }
        if self.number > 99 {
            return self;
        }
        Verdict {
            number: self.number * 10 + u16::from(byte - b'0'),
            ..self
        }
    }

    // An `r` stands in a refusal's line alone, before its number.
    #[tactic(auto, unfolding(crate::specs::Verdict::byte_of))]
    fn byte(self, byte: u8) -> Verdict
        ensures { result ≡ byte_of self byte }
    {
        match byte {
            b'\n' => Verdict {
                lines: next(self.lines),
                ended: self.number != 0,
                ..self
            },
            _ if self.line != 0 => self.digit(byte),
            b'r' => Verdict {
                line: next(self.lines),
                ..self
            },
            _ => self,
        }
    }

    // After more of what is printed.
    #[tactic(auto, unfolding(crate::specs::Verdict::verdict_of))]
    pub fn over(self, text: &[u8]) -> Verdict
        ensures { result ≡ verdict_of self text.now }
    {
        let mut verdict = self;
        for &byte in text {
            verdict = verdict.byte(byte);
        }
        verdict
    }

    // Names the refusal, if there is one; whether there is one.
    pub fn tell(self, program: &[u8], unit: &[u8]) -> bool
        ensures { result ≡ is_refused self }
    {
        if self.line == 0 {
            return false;
        }
        name(program, unit, self.line, u64::from(self.number));
        true
    }
}

// Names the refusal that ended a log, in its header or in the record behind so many, if there is one; whether there is one. The refusal is
// given by its number, whatever that is, and 0 is none. A log that has begun may have no record yet, so the two are no `Option`.
pub fn tell_log(program: &[u8], begun: bool, number: u8, records: u64) -> bool
    ensures { result ≡ not (eqb number 0) }
{
    if number == 0 {
        return false;
    }
    if begun {
        name(program, b"record", next(records), u64::from(number));
    } else {
        let fd = STDERR;
        io::write_all(fd, program);
        io::write_all(fd, b": refused ");
        io::print_decimal(fd, u64::from(number));
        io::write_all(fd, b" in the header\n");
    }
    true
}

// In what std prints of an error its number stands in brackets, behind the system's words.
const BRACKET: &[u8] = b" (os error ";

// How many bytes the words have; behind all that was printed there are zeros.
fn words(text: &[u8]) -> usize
    ensures { result ≤ length text.now }
{
    let n = text
        .iter()
        .position(|&byte| byte == 0)
        .unwrap_or(text.len());
    let mut parts = text[..n].windows(BRACKET.len());
    parts.position(|part| part == BRACKET).unwrap_or(n)
}

// Names a read or a write that failed, as `replay: standard input: Is a directory`, and gives the status that the program ends with: 0,
// since the line says all. Where the reader of the output has gone nothing is said, and the status is that of a program which that ends.
// It is the number that an `ExitCode` is made of.
pub fn tell_failed(what: &[u8], error: Error) -> u8
    ensures { (result ≡ 0) ⊎ (result ≡ 141) }
{
    if matches!(error.kind(), ErrorKind::BrokenPipe) {
        return READER_GONE;
    }
    let mut said = Cursor::new([0u8; 128]);
    let _ = write!(said, "{error}");
    let text = said.into_inner();
    let n = words(&text);
    io::write_all(STDERR, what);
    io::write_all(STDERR, b": ");
    io::write_all(STDERR, &text[..n]);
    io::write_all(STDERR, b"\n");
    0
}
