// Bias readings.
use super::{Readings, gyroscope, readings, told};
use answer::{Answer, Refusal};
use bias::{Bias, BiasSettings};

#[derive(Clone, Copy)]
pub(crate) struct Learnt {
    pub(crate) state: Bias,
    pub(crate) sum: u32,
}

// A quarter of the rates: still, so that the offset is followed.
pub(crate) fn reading_step(learnt: Learnt, log: &Readings, i: u32) -> Learnt {
    let reading = learnt.state.update(gyroscope(log, i).mul(0.25));
    Learnt {
        state: reading.state,
        sum: match reading.answer {
            Answer::Rates(x, _, _) => learnt.sum.wrapping_add(wire::bits_of(x)),
            _ => 0,
        },
    }
}

// The settings stand after the filter's.
pub(crate) fn start(log: &[f32]) -> Result<Learnt, Refusal> {
    if log.len() < 9010 {
        return Err(Refusal::Length);
    }
    let state = Bias::with_settings(BiasSettings {
        sample_rate: log[9006],
        stationary_threshold: log[9007],
        stationary_period: log[9008],
        cutoff_frequency: log[9009],
    })?;
    Ok(Learnt { state, sum: 0 })
}

fn run(log: &[f32], count: u32) -> Result<u32, Refusal> {
    let mut learnt = start(log)?;
    let log = readings(log)?;
    for i in 0..count {
        learnt = reading_step(learnt, log, i);
    }
    Ok(learnt.sum)
}

#[unsafe(no_mangle)]
pub extern "C" fn port_reading(log: &[f32], count: u32) -> u32 {
    told(run(log, count))
}
