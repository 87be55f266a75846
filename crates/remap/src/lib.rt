// Mountings: their names, one after another, undone, and a vector turned by one.
#![tactic(auto)]

pub mod mounting; // mounting.rt: a mounting by its number
pub mod names; // names.rt: write_name, read_name
pub mod table; // table.rt: compose, inverse

ghost use Rattle.answer.specs.Promises.{Answers};
ghost use Rattle.vector.specs.Mounting.{turn_of};
ghost use Rattle.vector.specs.Turned.{turn_checks, turned_answer};

use answer::Answer;
pub use mounting::Mounting;
pub use names::{read_name, write_name};
pub use table::{compose, inverse};
use vector::Vector;

// A sensor's vector in body axes: refused with 4 for a number above 23, then with 5 for a vector that is not finite.
pub fn remap(sensor: Vector, mounting: u8) -> Answer
    ensures { Answers (turn_checks sensor mounting) (turned_answer (turn_of mounting sensor)) result }
{
    sensor.turned(mounting)
}
