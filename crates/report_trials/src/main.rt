// Replays and reports stored logs, each whole, byte by byte, and cut once at every place: prints its name and its lines, and whether they
// are the same however it is cut. The crate `stored` says how a log stands in the input, and cuts it.
#![tactic(auto)]

ghost use Rattle.std.specs.Prelude.{◌≤◌, length};

use course::Phase;
use stored::{Fed, Machine, Replay};
use tally::Tally;

// The descriptors of standard input and standard output.
const STDIN: i32 = 0;

const STDOUT: i32 = 1;

// The report of a log, in which so many records are counted.
#[derive(Clone, Copy)]
struct Report {
    most: u32,
    tally: Tally,
}

impl Machine for Report {
    fn feed(self, buffer: &mut [u8], n: usize, _out: &mut [u8]) -> Fed<Report> {
        let fed = tally::feed(self.most, self.tally, buffer, n);
        Fed {
            machine: Report {
                tally: fed.tally,
                ..self
            },
            left: fed.left,
            n: 0,
        }
    }

    fn last(self, left: usize, out: &mut [u8]) -> usize {
        tally::last(self.most, self.tally, left, out).n
    }
}

fn reporting(most: u32) -> Report {
    Report {
        most,
        tally: tally::fresh(),
    }
}

// Prints what a machine makes of a log, and whether that is the same however the log is cut.
fn print_log<M: Machine>(machine: M, log: &[u8]) {
    let mut lines = io::buffer();
    let tried = stored::try_log(machine, log, &mut lines);
    io::write_all(STDOUT, &lines[..tried.n]);
    let text: &[u8] = if tried.uncut {
        b"the same however cut\n"
    } else {
        b"not the same when cut\n"
    };
    io::write_all(STDOUT, text);
}

// A log replayed, reported, and reported up to its second record.
fn try_log(log: &[u8]) {
    print_log(Replay(Phase::Header), log);
    print_log(reporting(tally::MOST), log);
    io::write_all(STDOUT, b"at most 2\n");
    print_log(reporting(2), log);
}

// Prints the name of each log, and tries it.
fn main() {
    let mut input = io::large_buffer();
    let n = io::read_full(STDIN, &mut input);
    let mut rest = &input[..n];
    while let Some(next) = stored::first(rest) {
        io::write_all(STDOUT, next.name);
        io::write_all(STDOUT, b"\n");
        try_log(next.log);
        rest = next.rest;
    }
}
