// The calls of the bias estimator: 60 to 67, and those of its offset's records.
use super::record::{Record, bias_settings_at, vector_at};
use super::said::{Said, Told, answered, begun, changed, not_begun, started};
use super::{offsets, said};
use bias::Bias;

// What a call that only reads the state says.
fn said_of(bias: Bias, call: u32, record: &Record) -> Said {
    match call {
        0x63 => said::read(bias.offset()),
        0x66 => said::read(bias.is_active()),
        0x67 => said::read(bias.settings()),
        0x68 => offsets::write(bias, record),
        _ => offsets::answer(call, record),
    }
}

fn tell(bias: Bias, call: u32, record: &Record) -> Told<Bias> {
    match call {
        0x61 => changed(bias.set_settings(bias_settings_at(record, 1))),
        0x62 => answered(bias.update(vector_at(record, 1))),
        0x64 => changed(bias.set_offset(vector_at(record, 1))),
        0x65 => changed(bias.restart()),
        0x69 => changed(offsets::restore(bias, record)),
        _ => Told {
            state: bias,
            said: said_of(bias, call, record),
        },
    }
}

pub(crate) fn answer(estimator: Option<Bias>, call: u32, record: &Record) -> Told<Option<Bias>> {
    if call == 0x60 {
        return started(estimator, Bias::with_settings(bias_settings_at(record, 1)));
    }
    match estimator {
        Some(bias) => begun(tell(bias, call, record)),
        None => not_begun(),
    }
}
