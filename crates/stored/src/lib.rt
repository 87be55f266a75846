// Stored logs, one behind another, and what a machine makes of one: whole, byte by byte, and cut once at every place. A log stands behind
// a name of 32 bytes and its length, 16 bits.
#![tactic(auto)]

ghost use Rattle.std.specs.Prelude.{◌≡◌, ◌+◌, ◌≤◌, ◌<◌, ◌↔◌, length, take, drop, IsNone, IfSome};
ghost use Rattle.wire.specs.Wire.{u16_at};

use course::Phase;

// How many bytes a name has, and with it the length behind it.
const NAME: usize = 32;

const HEAD: usize = 34;

// The first log of some: its name, its bytes, and what comes behind it.
#[derive(Clone, Copy)]
pub struct Stored<'a> {
    pub name: &'a [u8],
    pub log: &'a [u8],
    pub rest: &'a [u8],
}

// The first log, or nothing where the input ends within it.
pub fn first(input: &[u8]) -> Option<Stored<'_>>
    ensures none { IsNone result ↔ (length input.now < 34 + u16_at input.now 32) }
    ensures name { IfSome result (λ s. s.name.now ≡ take 32 input.now) }
    ensures log { IfSome result (λ s. s.log.now ≡ take (u16_at input.now 32) (drop 34 input.now)) }
    ensures rest { IfSome result (λ s. s.rest.now ≡ drop (u16_at input.now 32) (drop 34 input.now)) }
    ensures shorter { IfSome result (λ s. length s.rest.now < length input.now) }
{
    let long = wire::u16_at(input, NAME) as usize;
    if input.len() < HEAD + long {
        return None;
    }
    let (name, _) = input.split_at(NAME);
    let (_, behind) = input.split_at(HEAD);
    let (log, rest) = behind.split_at(long);
    Some(Stored { name, log, rest })
}

// A machine after some bytes, how many of them are left, and how many it printed.
#[derive(Clone, Copy)]
pub struct Fed<M> {
    pub machine: M,
    pub left: usize,
    pub n: usize,
}

// What reads a log in parts and prints.
pub trait Machine: Copy {
    // Feeds the first n bytes of the buffer, which are those that were left and those that came behind them, and puts what they print at
    // the start of `out`.
    fn feed(self, buffer: &mut [u8], n: usize, out: &mut [u8]) -> Fed<Self>
        ensures { result.n ≤ length out.new };

    // The end of the log, of which so many bytes are left; how many it printed.
    fn last(self, left: usize, out: &mut [u8]) -> usize
        ensures { result ≤ length out.new };
}

// The replay of a log.
#[derive(Clone, Copy)]
pub struct Replay(pub Phase);

impl Machine for Replay {
    fn feed(self, buffer: &mut [u8], n: usize, out: &mut [u8]) -> Fed<Replay> {
        let fed = playback::feed(self.0, buffer, n, out);
        Fed {
            machine: Replay(fed.phase),
            left: fed.left,
            n: fed.n,
        }
    }

    fn last(self, left: usize, out: &mut [u8]) -> usize {
        playback::last(self.0, left, out).n
    }
}

// Puts some bytes behind those that are left, where there is room; how many the buffer has then.
fn join(left: usize, part: &[u8], buffer: &mut [u8]) -> usize {
    if left > buffer.len() {
        return 0;
    }
    if part.len() > buffer.len() - left {
        return left;
    }
    buffer[left..left + part.len()].copy_from_slice(part);
    left + part.len()
}

fn start<M: Machine>(machine: M) -> Fed<M>
    ensures { result.n ≡ 0 }
{
    Fed {
        machine,
        left: 0,
        n: 0,
    }
}

// Feeds some bytes more, whose lines go behind those before.
fn feed<M: Machine>(fed: Fed<M>, part: &[u8], buffer: &mut [u8], out: &mut [u8]) -> Fed<M>
    requires { fed.n ≤ length out.old }
    ensures { result.n ≤ length out.new }
{
    let n = join(fed.left, part, buffer);
    let next = fed.machine.feed(buffer, n, &mut out[fed.n..]);
    Fed {
        n: fed.n + next.n,
        ..next
    }
}

// The end of the log: how many bytes were printed in all.
fn end<M: Machine>(fed: Fed<M>, out: &mut [u8]) -> usize
    requires { fed.n ≤ length out.old }
    ensures { result ≤ length out.new }
{
    fed.n + fed.machine.last(fed.left, &mut out[fed.n..])
}

// The log read in two parts.
fn cut_at<M: Machine>(
    machine: M,
    log: &[u8],
    cut: usize,
    buffer: &mut [u8],
    out: &mut [u8],
) -> usize
    requires { cut ≤ length log.now }
    ensures { result ≤ length out.new }
{
    let (front, back) = log.split_at(cut);
    let fed = feed(start(machine), front, buffer, out);
    let fed = feed(fed, back, buffer, out);
    end(fed, out)
}

fn byte_by_byte<M: Machine>(machine: M, log: &[u8], buffer: &mut [u8], out: &mut [u8]) -> usize
    ensures { result ≤ length out.new }
{
    let mut fed = start(machine);
    for i in 0..log.len() {
        fed = feed(fed, &log[i..i + 1], buffer, out);
    }
    end(fed, out)
}

// Whether the lines come out again, wherever the log is cut.
fn is_uncut<M: Machine>(
    machine: M,
    log: &[u8],
    lines: &[u8],
    buffer: &mut [u8],
    out: &mut [u8],
) -> bool {
    let n = byte_by_byte(machine, log, buffer, out);
    if out[..n] != lines[..] {
        return false;
    }
    for cut in 0..log.len() {
        let n = cut_at(machine, log, cut, buffer, out);
        if out[..n] != lines[..] {
            return false;
        }
    }
    true
}

// What came of a log: how many bytes its lines have, and whether they are the same however it is cut.
#[derive(Clone, Copy, Debug, PartialEq, Eq)]
pub struct Tried {
    pub n: usize,
    pub uncut: bool,
}

// Puts the lines that a machine makes of a log.
pub fn try_log<M: Machine>(machine: M, log: &[u8], lines: &mut [u8]) -> Tried
    ensures { result.n ≤ length lines.new }
{
    let mut out = io::buffer();
    let mut buffer = io::buffer();
    let n = cut_at(machine, log, log.len(), &mut buffer, lines);
    let uncut = is_uncut(machine, log, &lines[..n], &mut buffer, &mut out);
    Tried { n, uncut }
}
