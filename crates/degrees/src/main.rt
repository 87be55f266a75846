// Runs the vectors of standard input through the calls of `trig`, and prints of each kind how many were read and how many were answered wrong.
#![tactic(auto)]

mod vectors; // vectors.rt: what a vector says, and whether an answer is right

use std::fmt::{self, Write};
use std::io::Read;
use vectors::Kind;

// The descriptor of standard output.
const STDOUT: i32 = 1;

// Standard output, to which each part of a line is written as it comes. What it doesn't take is let go, and what comes behind is tried all
// the same: `println!` would end the program there.
#[derive(Clone, Copy, Debug)]
struct Out;

impl fmt::Write for Out {
    fn write_str(&mut self, text: &str) -> fmt::Result {
        io::write_all(STDOUT, text.as_bytes());
        Ok(())
    }
}

// Of the vectors of one kind.
#[derive(Clone, Copy, Debug)]
struct Tally {
    read: u64,
    wrong: u64,
}

// A last vector that is cut short is not counted.
fn run(rt: &HostRuntime) -> [Tally; 5] {
    let mut tallies = [Tally { read: 0, wrong: 0 }; 5];
    let mut input = rt.reader();
    let mut v = [0u8; 24];
    for _ in 0..u64::MAX {
        if input.read_exact(&mut v).is_err() {
            break;
        }
        let tally = &mut tallies[Kind::of(&v) as usize];
        tally.read = tally.read.wrapping_add(1);
        if !vectors::is_right(&v) {
            tally.wrong = tally.wrong.wrapping_add(1);
        }
    }
    tallies
}

fn print(tallies: &[Tally; 5]) -> fmt::Result {
    for kind in Kind::ALL {
        let tally = tallies[kind as usize];
        writeln!(
            Out,
            "{}: {} read, {} wrong",
            kind.name(),
            tally.read,
            tally.wrong
        )?;
    }
    Ok(())
}

// What nobody takes is let go, and the status is 0 all the same.
fn main(rt: HostRuntime) {
    let tallies = run(&rt);
    let _ = print(&tallies);
}
