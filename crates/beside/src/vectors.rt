// The calls of vectors: 10 to 1B.
use super::record::{Record, float_at, vector_at};
use super::said;
use super::said::Said;
use answer::Refusal;
use vector::Components;

pub(crate) fn answer(call: u32, record: &Record) -> Said {
    let v = vector_at(record, 1);
    let rhs = vector_at(record, 4);
    match call {
        0x10 => said::of(v.is_zero()),
        0x11 => said::of(v.sum()),
        0x12 => said::of(v.hadamard(rhs)),
        0x13 => said::of(v.dot(rhs)),
        0x14 => said::of(v.cross(rhs)),
        0x15 => said::of(v.norm_squared()),
        0x16 => said::of(v.norm()),
        0x17 => said::of(v.normalize()),
        0x18 => said::of(v.add(rhs)),
        0x19 => said::of(v.sub(rhs)),
        0x1A => said::of(v.neg()),
        0x1B => said::of(v.mul(float_at(record, 4))),
        _ => said::refused(Refusal::Length),
    }
}
