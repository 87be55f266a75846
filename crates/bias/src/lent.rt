// The estimator lent by its owner for writing: one thin function over the reading by value.
ghost use Rattle.bias.specs.Calls.{Reads};

use super::Bias;
use answer::Answer;
use vector::Vector;

pub fn update_lent(bias: &mut Bias, gyroscope: Vector) -> Answer
    ensures { Reads bias.old gyroscope (record { state = bias.new; answer = result }) }
{
    let read = (*bias).update(gyroscope);
    *bias = read.state;
    read.answer
}
