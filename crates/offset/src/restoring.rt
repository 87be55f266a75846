// A recorded offset set into the bias estimator, turned out of the recorded mounting and into another.
ghost use Rattle.std.specs.Prelude.{◌≡◌, true, ◌<◌};
ghost use Rattle.vector.specs.Mounting.{turn_of};
ghost use Rattle.vector.specs.Vectors.{finite_vector};
ghost use Rattle.offset.specs.Restore.{reframed_of, Restores};

use super::{LAYOUT, check_record, offset_at};
use answer::{Answer, Change};
use bias::Bias;
use vector::Vector;

// A vector turned. No other answer comes, since number and floats were checked before.
fn turned(vector: Vector, mounting: u8) -> Vector
    requires { (mounting < 24) × (finite_vector vector ≡ true) }
    ensures { result ≡ turn_of mounting vector }
{
    let Answer::Turned(x, y, z) = vector.turned(mounting) else {
        unreachable!();
    };
    Vector::new(x, y, z)
}

// A vector of the frame of one mounting in that of another.
fn reframed(vector: Vector, from: u8, to: u8) -> Vector
    requires { (from < 24) × (to < 24) × (finite_vector vector ≡ true) }
    ensures { result ≡ reframed_of vector from to }
{
    let inverse = remap::inverse(from).unwrap();
    turned(turned(vector, inverse), to)
}

// Sets the recorded offset, in the frame of `mounting`; a refused call leaves the state as it was.
pub fn restore(bias: Bias, bytes: &[u8], mounting: u8) -> Change<Bias>
    ensures { Restores bias bytes.now mounting result }
{
    if let Err(refusal) = check_record(bytes, LAYOUT, mounting, bias.is_finite()) {
        return Change::refused(bias, refusal);
    }
    let offset = offset_at(bytes);
    bias.set_offset(reframed(offset.vector, offset.mounting, mounting))
}
