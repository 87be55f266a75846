// The calls of mountings: 50 to 57.
use super::record::{Record, choice_at, float_at, length_at, vector_at};
use super::said::Said;
use super::{lent, said};
use answer::Refusal;

// The most floats that a record holds behind its first four words.
const GIVEN: usize = 12;

// A name, in a buffer of the length given.
fn name(record: &Record) -> Said {
    let mounting = choice_at(record, 1);
    lent::bytes(
        length_at(record, 2),
        |buffer| remap::write_name(mounting, buffer),
    )
}

// The mounting that the bytes from word 2 on name. A length beyond the record is refused as any other that is not 6.
fn named(record: &Record) -> Said {
    let n = length_at(record, 1);
    if n > 56 {
        return said::refused(Refusal::Length);
    }
    said::read(remap::read_name(&record[8..8 + n]))
}

// The floats of a run, from word 4 on.
fn given(record: &Record) -> [f32; 12] {
    let mut floats = [0.0f32; 12];
    for i in 0..GIVEN {
        floats[i] = float_at(record, 4 + i);
    }
    floats
}

// A run turned into a buffer of the length given.
fn turn_run(record: &Record) -> Said {
    let n = length_at(record, 2);
    if n > GIVEN {
        return said::refused(Refusal::Length);
    }
    let mounting = choice_at(record, 1);
    let floats = given(record);
    let source = &floats[..n];
    lent::floats(
        length_at(record, 3),
        |turned| turning::turn_run(mounting, source, turned),
    )
}

pub(crate) fn answer(call: u32, record: &Record) -> Said {
    let mounting = choice_at(record, 1);
    match call {
        0x50 => said::answer(remap::remap(vector_at(record, 2), mounting)),
        0x51 => said::read(remap::compose(mounting, choice_at(record, 2))),
        0x52 => said::read(remap::inverse(mounting)),
        0x53 => name(record),
        0x54 => named(record),
        0x55 => turn_run(record),
        0x56 => said::read(alignment::to_matrix(mounting)),
        0x57 => said::answer(alignment::rotate(vector_at(record, 2), mounting)),
        _ => said::refused(Refusal::Length),
    }
}
