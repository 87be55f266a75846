// Square roots.
use super::{accelerometer, sum};

#[unsafe(no_mangle)]
pub extern "C" fn port_root(log: &[f32], count: u32) -> u32 {
    sum(
        log,
        count,
        |log, i| root::sqrtf(accelerometer(log, i).z + 8.0),
    )
}
