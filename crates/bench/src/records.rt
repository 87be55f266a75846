// Records of an offset, read and restored.
use super::show::{OfVector, Out};
use bias::{Bias, BiasSettings};
use offset::Offset;
use std::fmt::{self, Write};
use vector::Vector;

// The bench table's record: offset (1, -2, 0.5) under mounting 11.
const RECORD: [u8; 18] = *b"GOF\x01\x00\x0b\x00\x00\x80\x3f\x00\x00\x00\xc0\x00\x00\x00\x3f";

fn print_record(name: &str, bytes: &[u8]) -> fmt::Result {
    match offset::read_offset(bytes) {
        Ok(held) => {
            writeln!(
                Out,
                "{name}:{} under mounting {}",
                OfVector(held.vector),
                held.mounting
            )
        }
        Err(refusal) => writeln!(Out, "{name}: {refusal}"),
    }
}

// Restores the record into a fresh estimator.
fn print_restored(name: &str, bytes: &[u8], mounting: u8) -> fmt::Result {
    let Ok(fresh) = Bias::with_settings(BiasSettings {
        sample_rate: 100.0,
        stationary_threshold: 3.0,
        stationary_period: 3.0,
        cutoff_frequency: 0.02,
    }) else {
        return Ok(());
    };
    let change = offset::restore(fresh, bytes, mounting);
    match change.result {
        Ok(()) => {
            writeln!(
                Out,
                "{name} restored under mounting {mounting}:{}",
                OfVector(change.state.offset)
            )
        }
        Err(refusal) => writeln!(Out, "{name} restored under mounting {mounting}: {refusal}"),
    }
}

fn print_records() -> fmt::Result {
    let mut longer = [0u8; 19];
    longer[..18].copy_from_slice(&RECORD);
    let mut unknown = RECORD;
    unknown[5] = 24;
    print_record("record", &RECORD)?;
    print_restored("record", &RECORD, 0)?;
    print_record("record of 17 bytes", &RECORD[..17])?;
    print_record("record of 19 bytes", &longer)?;
    print_record("record of mounting 24", &unknown)
}

// A record has no minus zero, and the sign of a restored zero is the turning's.
fn print_zeros() -> fmt::Result {
    let mut record = [0u8; 18];
    let offset = Offset {
        mounting: 0,
        vector: Vector::new(-0.0, -0.0, -0.0),
    };
    // What is refused leaves the record as it was.
    let _ = offset::write_offset(offset, &mut record);
    print_record("minus zeros written and read", &record)?;
    print_restored("record of zeros", &record, 2)?;
    record[17] = 0x80;
    print_record("record with a minus zero", &record)?;
    print_restored("record with a minus zero", &record, 2)
}

pub(crate) fn print() -> fmt::Result {
    print_records()?;
    print_zeros()
}
