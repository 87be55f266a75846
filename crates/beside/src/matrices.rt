// The calls of matrices: 20 to 22.
use super::record::{Record, float_at, matrix, vector_at};
use super::said;
use super::said::Said;
use answer::Refusal;

pub(crate) fn answer(call: u32, record: &Record) -> Said {
    let m = matrix(record);
    match call {
        0x20 => said::of(m.transpose()),
        0x21 => said::of(m.mul(float_at(record, 10))),
        0x22 => said::of(m.mul_vector(vector_at(record, 10))),
        _ => said::refused(Refusal::Length),
    }
}
