// Replays stored logs, each whole, byte by byte, and cut once at every place: prints its name and its lines, and whether they are
// the same however it is cut. The crate `stored` says how a log stands in the input, and cuts it.
#![tactic(auto)]

use course::Phase;
use stored::Replay;

// The descriptors of standard input and standard output.
const STDIN: i32 = 0;

const STDOUT: i32 = 1;

// Prints the lines of a log's replay, and whether they are the same however the log is cut.
fn print_log(log: &[u8]) {
    let mut lines = io::buffer();
    let tried = stored::try_log(Replay(Phase::Header), log, &mut lines);
    io::write_all(STDOUT, &lines[..tried.n]);
    let text: &[u8] = if tried.uncut {
        b"the same however cut\n"
    } else {
        b"not the same when cut\n"
    };
    io::write_all(STDOUT, text);
}

// Prints the name of each log, and tries it.
fn main() {
    let mut input = io::large_buffer();
    let n = io::read_full(STDIN, &mut input);
    let mut rest = &input[..n];
    while let Some(next) = stored::first(rest) {
        io::write_all(STDOUT, next.name);
        io::write_all(STDOUT, b"\n");
        print_log(next.log);
        rest = next.rest;
    }
}
