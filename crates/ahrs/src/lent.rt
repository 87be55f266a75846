// The filter lent by its owner for writing: one thin function over the update by value, as the project asks.
ghost use Rattle.ahrs.specs.Calls.{Updates};

use super::Ahrs;
use answer::Answer;
use vector::Vector;

pub fn update_lent(
    ahrs: &mut Ahrs,
    gyroscope: Vector,
    accelerometer: Vector,
    magnetometer: Vector,
) -> Answer
    ensures { Updates ahrs.old gyroscope accelerometer magnetometer (record { state = ahrs.new; answer = result }) }
{
    let read = (*ahrs).update(gyroscope, accelerometer, magnetometer);
    *ahrs = read.state;
    read.answer
}
