// The calls of quaternions: 30 to 3B.
use super::record::{Record, float_at, quaternion_at, vector_at};
use super::said;
use super::said::Said;
use answer::Refusal;
use vector::Components;

pub(crate) fn answer(call: u32, record: &Record) -> Said {
    let q = quaternion_at(record, 1);
    let rhs = quaternion_at(record, 5);
    let v = vector_at(record, 5);
    match call {
        0x30 => said::of(q.sum()),
        0x31 => said::of(q.hadamard(rhs)),
        0x32 => said::of(q.vector_product(v)),
        0x33 => said::of(q.conjugate()),
        0x34 => said::of(q.norm_squared()),
        0x35 => said::of(q.norm()),
        0x36 => said::of(q.normalize()),
        0x37 => said::of(q.to_matrix()),
        0x38 => said::of(q.rotate(v)),
        0x39 => said::of(q.add(rhs)),
        0x3A => said::of(q.mul(float_at(record, 5))),
        0x3B => said::of(q.product(rhs)),
        _ => said::refused(Refusal::Length),
    }
}
