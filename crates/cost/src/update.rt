// Updates of the filter.
use super::{Readings, accelerometer, gyroscope, magnetometer, readings, told};
use ahrs::{Ahrs, Limit, Settings};
use answer::Refusal;

pub(crate) fn update_step(state: Ahrs, log: &Readings, i: u32) -> Ahrs {
    state
        .update(
            gyroscope(log, i),
            accelerometer(log, i),
            magnetometer(log, i),
        )
        .state
}

// The settings stand after the readings, so that no compiler folds them into the loop.
pub(crate) fn start(log: &[f32]) -> Result<Ahrs, Refusal> {
    if log.len() < 9006 {
        return Err(Refusal::Length);
    }
    Ahrs::with_settings(Settings {
        sample_rate: log[9000],
        convention: 0,
        gain: log[9001],
        gyroscope_range: log[9002],
        acceleration_rejection: Limit::Squared(log[9003]),
        magnetic_rejection: Limit::Squared(log[9004]),
        rejection_timeout: log[9005],
    })
}

// By hand, and not by a closure, which copies the state: so a call took 949 instructions, by fold 985, by a function over a step 995.
fn updates(log: &[f32], count: u32) -> Result<u32, Refusal> {
    let mut state = start(log)?;
    let log = readings(log)?;
    for i in 0..count {
        state = update_step(state, log, i);
    }
    Ok(wire::bits_of(state.quaternion.w))
}

#[unsafe(no_mangle)]
pub extern "C" fn port_update(log: &[f32], count: u32) -> u32 {
    told(updates(log, count))
}
