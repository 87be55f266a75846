// Angles of points, and the calls of headings. They call the update too, which would then not be drawn into its own loop: it is counted
// in a library without this file.
use super::update::start;
use super::{Readings, accelerometer, gyroscope, magnetometer, readings, sum, told};
use ahrs::Ahrs;
use answer::Refusal;

// What the rates about x, of some 4 degrees a second at most, are headings from -360 to 360 by.
const STRETCH: f32 = 92.0;

// What the field along y is headings of some 5 degrees either way by.
const SWAY: f32 = 20.0;

fn angle_of(log: &Readings, i: u32) -> f32 {
    let gyroscope = gyroscope(log, i);
    trig::angle(gyroscope.y, gyroscope.x)
}

fn set_step(state: Ahrs, log: &Readings, i: u32) -> Ahrs {
    heading::set_heading(state, gyroscope(log, i).x * STRETCH).state
}

fn external_step(state: Ahrs, log: &Readings, i: u32) -> Ahrs {
    let to = magnetometer(log, i).y * SWAY;
    heading::update_external_heading(state, gyroscope(log, i), accelerometer(log, i), to).state
}

fn without_step(state: Ahrs, log: &Readings, i: u32) -> Ahrs {
    heading::update_no_magnetometer(state, gyroscope(log, i), accelerometer(log, i)).state
}

#[unsafe(no_mangle)]
pub extern "C" fn port_angle(log: &[f32], count: u32) -> u32 {
    sum(log, count, angle_of)
}

// A loop of calls that each take the state on.
fn run<F: Fn(Ahrs, &Readings, u32) -> Ahrs>(
    log: &[f32],
    count: u32,
    step: F,
) -> Result<u32, Refusal>
    requires { F.IsAlwaysCallable step }
{
    let mut state = start(log)?;
    let log = readings(log)?;
    for i in 0..count {
        state = step(state, log, i);
    }
    Ok(wire::bits_of(state.quaternion.w))
}

#[unsafe(no_mangle)]
pub extern "C" fn port_set_heading(log: &[f32], count: u32) -> u32 {
    told(run(log, count, set_step))
}

#[unsafe(no_mangle)]
pub extern "C" fn port_external_heading(log: &[f32], count: u32) -> u32 {
    told(run(log, count, external_step))
}

#[unsafe(no_mangle)]
pub extern "C" fn port_no_magnetometer(log: &[f32], count: u32) -> u32 {
    told(run(log, count, without_step))
}

fn once(log: &[f32], count: u32) -> Result<u32, Refusal> {
    let state = start(log)?;
    let log = readings(log)?;
    let set = set_step(state, log, count);
    let shown = external_step(set, log, count);
    Ok(wire::bits_of(without_step(shown, log, count).startup_gain))
}

// One call of each, so that the compiler leaves them functions.
#[unsafe(no_mangle)]
pub extern "C" fn port_once_headed(log: &[f32], count: u32) -> u32 {
    told(once(log, count))
}
