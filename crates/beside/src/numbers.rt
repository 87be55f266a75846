// The calls of numbers: 40 to 49.
use super::record::{Record, float_at, whole_at};
use super::said;
use super::said::Said;
use answer::Refusal;

pub(crate) fn answer(call: u32, record: &Record) -> Said {
    let x = float_at(record, 1);
    let a = whole_at(record, 1);
    let b = whole_at(record, 2);
    match call {
        0x40 => said::of(root::sqrtf(x)),
        0x41 => said::of(number::fabsf(x)),
        0x42 => said::of(number::to_i32(x)),
        0x43 => said::of(number::to_u32(x)),
        0x44 => said::of(number::from_i32(a)),
        0x45 => said::of(number::saturating_add(a, b)),
        0x46 => said::of(number::saturating_sub(a, b)),
        0x47 => said::read(trig::sin_degrees(x)),
        0x48 => said::read(trig::cos_degrees(x)),
        0x49 => said::read(trig::angle_degrees(x, float_at(record, 2))),
        _ => said::refused(Refusal::Length),
    }
}
