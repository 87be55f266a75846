// The bench: runs the root vectors of standard input and the rows of the bench table that are not proved, and prints a
// line for each.
#![tactic(auto)]

mod boards; // boards.rt: two parties and one table
mod filter; // filter.rt: stories of the filter
mod knocks; // knocks.rt: what a story shows of the range, of startup and of the rejection
mod locked; // locked.rt: a sensor that is locked out and comes back
mod orientations; // orientations.rt: quaternions that are set, and one that overflows
mod records; // records.rt: records of an offset
mod roots; // roots.rt: root vectors
mod show; // show.rt: floats by their bits
mod still; // still.rt: a sensor that stands still
mod until; // until.rt: how long something takes

use show::Out;
use std::fmt::{self, Write};

fn print_roots(rt: &HostRuntime) -> fmt::Result {
    let tally = roots::run(rt);
    writeln!(Out, "roots: {} read, {} wrong", tally.read, tally.wrong)
}

fn print_still(name: &str, stationary_period: f32) -> fmt::Result {
    let still = still::run(stationary_period);
    let (active, moves) = (still.active, still.moves);
    writeln!(
        Out,
        "{name}: active after reading {active}, offset first moves at {moves}"
    )
}

fn print(rt: &HostRuntime) -> fmt::Result {
    print_roots(rt)?;
    print_still("bias timeout 300", 3.0)?;
    print_still("bias timeout 0", 0.0)?;
    records::print()?;
    knocks::print()?;
    orientations::print()?;
    boards::print()
}

// What nobody takes is let go, and the status is 0 all the same.
fn main(rt: HostRuntime) {
    let _ = print(&rt);
}
