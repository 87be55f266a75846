// The calls of the offset's records: 68 to 6C.
ghost use Rattle.std.specs.Prelude.{◌+◌, ◌≤◌};

use super::record::{Record, bias_settings_at, choice_at, length_at};
use super::said::Said;
use super::{lent, said};
use answer::{Change, Refusal};
use bias::Bias;
use offset::Offset;

// The n bytes from a place on, where a call gives `most`. Of a length beyond that there are none, so that it is refused as any wrong length.
fn given(record: &Record, at: usize, most: usize, n: usize) -> &[u8]
    requires { at + most ≤ 64 }
{
    if n > most {
        return &[];
    }
    &record[at..at + n]
}

// The record of the estimator's offset, in a buffer of the length given.
pub(crate) fn write(bias: Bias, record: &Record) -> Said {
    let offset = Offset {
        mounting: choice_at(record, 1),
        vector: bias.offset,
    };
    lent::bytes(
        length_at(record, 2),
        |buffer| offset::write_offset(offset, buffer),
    )
}

// A record of either edition restored.
pub(crate) fn restore(bias: Bias, record: &Record) -> Change<Bias> {
    let bytes = given(record, 12, 52, length_at(record, 2));
    editions::restore(bias, bytes, choice_at(record, 1))
}

// A record moved up into a buffer of the length given, with the settings of the last four words.
fn move_up(record: &Record) -> Said {
    let source = given(record, 12, 36, length_at(record, 1));
    let settings = bias_settings_at(record, 12);
    lent::bytes(
        length_at(record, 2),
        |buffer| editions::move_up(source, settings, buffer),
    )
}

// A record moved down into a buffer of the length given.
fn move_down(record: &Record) -> Said {
    let source = given(record, 12, 48, length_at(record, 1));
    lent::bytes(
        length_at(record, 2),
        |buffer| editions::move_down(source, buffer),
    )
}

// What the reader of the first edition says.
fn read(record: &Record) -> Said {
    said::read(offset::read_offset(given(record, 8, 56, length_at(record, 1))))
}

// The calls that neither read nor change the estimator.
pub(crate) fn answer(call: u32, record: &Record) -> Said {
    match call {
        0x6A => move_up(record),
        0x6B => move_down(record),
        0x6C => read(record),
        _ => said::refused(Refusal::Length),
    }
}
