// Answers the calls of standard input, a record of 64 bytes each, with a line each, to be held beside the Rust's. Any bytes are
// answered: a record that is no call's, or cut short at the end, with `refused 1`.
#![tactic(auto)]

mod biases; // biases.rt: the calls of the bias estimator
mod feet; // feet.rt: the calls of two filters and one table
mod filters; // filters.rt: the calls of the filter
mod lent; // lent.rt: a buffer that a call lends
mod line; // line.rt: the lines
mod matrices; // matrices.rt: the calls of matrices
mod mountings; // mountings.rt: the calls of mountings
mod numbers; // numbers.rt: the calls of numbers
mod offsets; // offsets.rt: the calls of the offset's records
mod quaternions; // quaternions.rt: the calls of quaternions
mod record; // record.rt: a call's record
mod said; // said.rt: what a call says
mod states; // states.rt: the states in words
mod vectors; // vectors.rt: the calls of vectors
mod words; // words.rt: the words of a line

use ahrs::Ahrs;
use answer::Refusal;
use bias::Bias;
use feet::Feet;
use line::Lines;
use record::{Record, word_at};
use said::Said;
use std::io::{Error, Read};
use std::process::ExitCode;
use verdict::Verdict;
use words::{Worded, Words};

// The three states that calls change; of the first two none before a start was accepted.
#[derive(Clone, Copy)]
struct Machine {
    estimator: Option<Bias>,
    filter: Option<Ahrs>,
    feet: Feet,
}

// The states after a call, and what it says.
#[derive(Clone, Copy)]
struct Answered {
    machine: Machine,
    said: Said,
}

// The states after some calls, and what the lines say of the run.
#[derive(Clone, Copy)]
struct Run {
    machine: Machine,
    verdict: Verdict,
}

// The bytes of one read.
const BLOCK: usize = 4096;

// The descriptor of standard input, which `io::read_full` asks for.
const STDIN: i32 = 0;

fn in_words<T: Worded>(value: T) -> Words {
    Words::none().with(value)
}

fn answer_bias(machine: Machine, call: u32, record: &Record) -> Answered {
    let told = biases::answer(machine.estimator, call, record);
    Answered {
        machine: Machine {
            estimator: told.state,
            ..machine
        },
        said: told.said,
    }
}

fn answer_filter(machine: Machine, call: u32, record: &Record) -> Answered {
    let told = filters::answer(machine.filter, call, record);
    Answered {
        machine: Machine {
            filter: told.state,
            ..machine
        },
        said: told.said,
    }
}

fn answer_feet(machine: Machine, call: u32, record: &Record) -> Answered {
    let told = feet::answer(machine.feet, call, record);
    Answered {
        machine: Machine {
            feet: told.state,
            ..machine
        },
        said: told.said,
    }
}

// What a call says that changes no state; a number that is no call's is refused with 1.
fn said_plainly(call: u32, record: &Record) -> Said {
    match call {
        0x10..=0x1F => vectors::answer(call, record),
        0x20..=0x2F => matrices::answer(call, record),
        0x30..=0x3F => quaternions::answer(call, record),
        0x40..=0x4F => numbers::answer(call, record),
        0x50..=0x5F => mountings::answer(call, record),
        _ => said::refused(Refusal::Length),
    }
}

fn answer(machine: Machine, call: u32, record: &Record) -> Answered {
    match call {
        0x60..=0x6C => answer_bias(machine, call, record),
        0x80..=0x95 => answer_filter(machine, call, record),
        0xA0..=0xA4 => answer_feet(machine, call, record),
        _ => Answered {
            machine,
            said: said_plainly(call, record),
        },
    }
}

// The state that a call changed, in words.
fn shown(machine: Machine, call: u32, record: &Record) -> Option<Words> {
    match call {
        0x60..=0x6C => machine.estimator.map(in_words),
        0x80..=0x95 => machine.filter.map(in_words),
        0xA0..=0xA4 => feet::words(machine.feet, call, record),
        _ => None,
    }
}

// Of a call whose number has 0x100 more the state is not shown, and so no words are made of it.
fn print_answer(machine: Machine, record: &Record, out: &mut Lines) -> Machine {
    let word = word_at(record, 0);
    let quiet = word / 0x100 == 1;
    let call = if quiet { word % 0x100 } else { word };
    let answered = answer(machine, call, record);
    let state = if quiet {
        None
    } else {
        shown(answered.machine, call, record)
    };
    out.put_line(answered.said.result, &answered.said.words, state);
    answered.machine
}

fn print_all(machine: Machine, block: &[u8], out: &mut Lines) -> Machine {
    let mut machine = machine;
    let (records, rest) = block.as_chunks();
    for record in records {
        machine = print_answer(machine, record, out);
    }
    if !rest.is_empty() {
        out.put_line(Err(Refusal::Length), &Words::none(), None);
    }
    machine
}

fn input_failed(error: Error) -> u8 {
    verdict::tell_failed(b"beside: standard input", error)
}

fn output_failed(error: Error) -> u8 {
    verdict::tell_failed(b"beside: standard output", error)
}

// Whether the input has ended, which one more read tells from a read that failed.
fn check_end(rt: &HostRuntime) -> Result<(), Error> {
    let mut more = [0u8; 1];
    if rt.stdin().read(&mut more)? == 0 {
        return Ok(());
    }
    Err(Error::from_raw_os_error(0))
}

// Reads a block of records, and writes its lines; nothing comes behind a block that is not full. Where a read or a write has failed, nothing
// more is printed, and the program ends with the status in the `Err`.
fn read_on(rt: &HostRuntime, run: &mut Run) -> Result<bool, u8> {
    let mut block = io::buffer();
    let n = io::read_full(STDIN, &mut block);
    if n < BLOCK {
        check_end(rt).map_err(input_failed)?;
    }
    let mut out = Lines::none();
    run.machine = print_all(run.machine, &block[..n], &mut out);
    rt.write_all(out.as_slice()).map_err(output_failed)?;
    run.verdict = run.verdict.over(out.as_slice());
    Ok(n == BLOCK)
}

// Nothing says that an input ends, so the turns are counted, up to a number that no run uses up. At the end the first refusal is told in words.
fn answer_all(rt: &HostRuntime) -> Result<(), u8> {
    let mut run = Run {
        machine: Machine {
            estimator: None,
            filter: None,
            feet: Feet::none(),
        },
        verdict: Verdict::none(),
    };
    for _ in 0..u64::MAX {
        if !read_on(rt, &mut run)? {
            break;
        }
    }
    run.verdict.tell(b"beside", b"call");
    Ok(())
}

fn main(rt: HostRuntime) -> ExitCode {
    match answer_all(&rt) {
        Ok(()) => ExitCode::SUCCESS,
        Err(status) => ExitCode::from(status),
    }
}
