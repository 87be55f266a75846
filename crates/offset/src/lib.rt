// The 18-byte record of a gyroscope offset: written, read, and restored into the bias estimator under any mounting.
// A zero stands in it with a plus sign, so that one offset has one record.
#![tactic(auto)]

pub mod restoring; // restoring.rt: restore

ghost use Rattle.std.specs.Prelude.{◌≡◌, length};
ghost use Rattle.answer.specs.Refusals.{refusal_of};
ghost use Rattle.answer.specs.Rows.{number_in};
ghost use Rattle.wire.specs.Wire.{float_of};
ghost use Rattle.offset.specs.Record.{has_mark, storable, storable_vector, vector_at, offset_at, record_of, record_checks, write_checks, Reads, Writes};

use answer::Refusal;
pub use restoring::restore;
use vector::Vector;

// How many bytes a record has.
pub const LENGTH: usize = 18;

// Its version.
pub const VERSION: u16 = 1;

// What a record is held to before it is read: how many bytes it has, and its version.
#[derive(Clone, Copy, Debug, PartialEq, Eq)]
pub struct Layout {
    pub size: usize,
    pub version: u16,
}

pub const LAYOUT: Layout = Layout {
    size: LENGTH,
    version: VERSION,
};

// An offset, in the frame of a mounting, by a number that may be any: `write_offset` refuses what is no mounting's.
#[derive(Clone, Copy, Debug, PartialEq)]
pub struct Offset {
    pub mounting: u8,
    pub vector: Vector,
}

// What a record begins with.
const MARK: [u8; 3] = *b"GOF";

// Whether it does.
#[tactic(auto, using(crate::proofs::Marked::marked))]
fn has_mark(bytes: &[u8]) -> bool
    ensures { result ≡ has_mark bytes.now }
{
    bytes.starts_with(&MARK)
}

// Whether a record may hold a float, by its bits: a float is made only of bits that passed.
fn is_storable(bits: u32) -> bool
    ensures { result ≡ storable (float_of bits) }
{
    wire::is_finite_bits(bits) & (bits != 0x8000_0000)
}

// Whether it may hold the three that it does.
#[tactic(auto, unfolding(crate::specs::Record::storable_vector, crate::specs::Record::vector_at))]
fn are_storable(bytes: &[u8]) -> bool
    ensures { result ≡ storable_vector (vector_at bytes.now) }
{
    is_storable(wire::bits_at(bytes, 6))
        & is_storable(wire::bits_at(bytes, 10))
        & is_storable(wire::bits_at(bytes, 14))
}

// A record's checks, by whatever layout, beside one more mounting number and whether the caller's own floats are finite.
#[tactic(auto, unfolding(answer::specs::Refusals::refusal_of, crate::specs::Record::record_checks))]
pub fn check_record(bytes: &[u8], layout: Layout, mounting: u8, finite: bool) -> Result<(), Refusal>
    ensures { number_in result ≡ refusal_of (record_checks layout.size layout.version bytes.now mounting finite) }
{
    if bytes.len() != layout.size {
        return Err(Refusal::Length);
    }
    if !has_mark(bytes) {
        return Err(Refusal::Mark);
    }
    if wire::u16_at(bytes, 3) != layout.version {
        return Err(Refusal::Version);
    }
    if (mounting > 23) | (wire::u8_at(bytes, 5) > 23) {
        return Err(Refusal::Unknown);
    }
    if !(finite & are_storable(bytes)) {
        return Err(Refusal::NotFinite);
    }
    Ok(())
}

// The number of those checks, 0 where none refuses.
pub fn record_refusal(bytes: &[u8], length: usize, version: u16, mounting: u8, finite: bool) -> u8
    ensures { result ≡ refusal_of (record_checks length version bytes.now mounting finite) }
{
    let size = length;
    answer::number_in(check_record(bytes, Layout { size, version }, mounting, finite))
}

// What an accepted record holds.
#[tactic(auto, unfolding(crate::specs::Record::vector_at))]
fn offset_at(bytes: &[u8]) -> Offset
    ensures { result ≡ offset_at bytes.now }
{
    Offset {
        mounting: wire::u8_at(bytes, 5),
        vector: Vector::new(
            wire::float_at(bytes, 6),
            wire::float_at(bytes, 10),
            wire::float_at(bytes, 14),
        ),
    }
}

// The offset that a record holds.
pub fn read_offset(bytes: &[u8]) -> Result<Offset, Refusal>
    ensures { Reads bytes.now result }
{
    check_record(bytes, LAYOUT, 0, true)?;
    Ok(offset_at(bytes))
}

// Stores the record where it has just room. x + 0.0 is x with a plus zero for a minus zero.
fn put_offset(offset: Offset, bytes: &mut [u8])
    requires { length bytes.old ≡ 18 }
    ensures { bytes.new ≡ record_of offset }
{
    let vector = offset.vector;
    bytes[0..3].copy_from_slice(&MARK);
    wire::put_u16(bytes, 3, VERSION);
    bytes[5] = offset.mounting;
    wire::put_bits(bytes, 6, wire::bits_of(vector.x + 0.0));
    wire::put_bits(bytes, 10, wire::bits_of(vector.y + 0.0));
    wire::put_bits(bytes, 14, wire::bits_of(vector.z + 0.0));
}

// A write's checks, of what is written and of the room for it.
#[tactic(auto, unfolding(answer::specs::Refusals::refusal_of))]
fn check_write(offset: Offset, room: usize) -> Result<(), Refusal>
    ensures { number_in result ≡ refusal_of (write_checks offset room) }
{
    if room != LENGTH {
        return Err(Refusal::Length);
    }
    if offset.mounting > 23 {
        return Err(Refusal::Unknown);
    }
    if !offset.vector.is_finite() {
        return Err(Refusal::NotFinite);
    }
    Ok(())
}

// Writes the record of an offset; a refused call leaves the buffer as it was.
pub fn write_offset(offset: Offset, bytes: &mut [u8]) -> Result<(), Refusal>
    ensures { Writes offset bytes.old bytes.new (number_in result) }
{
    check_write(offset, bytes.len())?;
    put_offset(offset, bytes);
    Ok(())
}
