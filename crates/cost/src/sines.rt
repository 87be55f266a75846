// Sines and cosines of degrees.
use super::{gyroscope, sum};

// What the rates about x, of some 4 degrees a second at most, are angles from -360 to 360 by.
const STRETCH: f32 = 92.0;

#[unsafe(no_mangle)]
pub extern "C" fn port_sine(log: &[f32], count: u32) -> u32 {
    sum(
        log,
        count,
        |log, i| trig::sin(gyroscope(log, i).x * STRETCH),
    )
}

#[unsafe(no_mangle)]
pub extern "C" fn port_cosine(log: &[f32], count: u32) -> u32 {
    sum(
        log,
        count,
        |log, i| trig::cos(gyroscope(log, i).x * STRETCH),
    )
}
