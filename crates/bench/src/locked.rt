// A sensor that is locked out and comes back, T = 500 at 100 Hz: readings over its limit until recovery has begun, and good ones until it has ended.
use super::filter::{Sensor, held, shown};
use super::until::until;
use ahrs::Ahrs;
use vector::Vector;

// More readings than this are not tried.
const MOST: u32 = 10000;

// The state after the last reading that is ignored, the first that is used, the last good one in recovery, and the one that ends it.
#[derive(Clone, Copy)]
pub(crate) struct Story {
    pub locked_out: Ahrs,
    pub begun: Ahrs,
    pub recovering: Ahrs,
    pub back: Ahrs,
}

// With one of the two over its limit; and then an upright pole that looks north.
pub(crate) fn run(start: Ahrs, accelerometer: Vector, magnetometer: Vector) -> Story {
    let upright = Vector::new(0.0, 0.0, 1.0);
    let north = Vector::new(1.0, 0.0, 0.0);
    let locked_out = held(start, accelerometer, magnetometer, 500);
    let begun = held(locked_out, accelerometer, magnetometer, 1);
    let recovering = held(begun, upright, north, 55);
    let back = held(recovering, upright, north, 1);
    Story {
        locked_out,
        begun,
        recovering,
        back,
    }
}

// How many readings more it takes a compass that stays as it is to be out of recovery: the filter turns to it.
pub(crate) fn lasts(begun: Ahrs, accelerometer: Vector, magnetometer: Vector) -> u32 {
    until(
        begun,
        MOST,
        |state| held(state, accelerometer, magnetometer, 1),
        |state| !shown(state, Sensor::Compass).flag,
    )
}
