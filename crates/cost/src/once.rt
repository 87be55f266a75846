// One call of each, so that the compiler leaves update and reading as functions. Without this file it draws them into their loops.
use super::reading::reading_step;
use super::update::update_step;
use super::{reading, readings, told, update};
use answer::Refusal;

fn updated(log: &[f32], count: u32) -> Result<u32, Refusal> {
    let state = update::start(log)?;
    Ok(wire::bits_of(update_step(state, readings(log)?, count).startup_gain))
}

fn read(log: &[f32], count: u32) -> Result<u32, Refusal> {
    let learnt = reading::start(log)?;
    Ok(reading_step(learnt, readings(log)?, count).sum)
}

#[unsafe(no_mangle)]
pub extern "C" fn port_once(log: &[f32], count: u32) -> u32 {
    told(updated(log, count))
}

#[unsafe(no_mangle)]
pub extern "C" fn port_once_more(log: &[f32], count: u32) -> u32 {
    told(read(log, count))
}
