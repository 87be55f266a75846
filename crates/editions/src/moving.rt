// A record moved to the other edition: up, given settings, and down, dropping them.
ghost use Rattle.std.specs.Prelude.{◌≤◌, ◌≡◌, ◌++◌, length, drop};
ghost use Rattle.answer.specs.Refusals.{refusal_of};
ghost use Rattle.answer.specs.Rows.{number_in};
ghost use Rattle.editions.specs.Move.{part_of, move_checks, up_checks, MovesUp, MovesDown};
ghost use Rattle.editions.specs.Inner.{put_settings};

use super::{Edition, FIRST, SECOND, check_edition};
use answer::Refusal;
use bias::BiasSettings;

// The offset's part of a record, with another version, at the front of `out`.
pub(crate) fn put_part(source: &[u8], version: u16, out: &mut [u8])
    requires { (18 ≤ length source.now) × (18 ≤ length out.old) }
    ensures { out.new ≡ part_of version source.now ++ drop 18 out.old }
{
    out[0..offset::LENGTH].copy_from_slice(&source[0..offset::LENGTH]);
    wire::put_u16(out, 3, version);
}

// The settings behind it, bit for bit.
fn put_settings(settings: BiasSettings, out: &mut [u8])
    ensures { out.new ≡ put_settings settings out.old }
{
    wire::put_bits(out, 18, wire::bits_of(settings.sample_rate));
    wire::put_bits(out, 22, wire::bits_of(settings.cutoff_frequency));
    wire::put_bits(out, 26, wire::bits_of(settings.stationary_threshold));
    wire::put_bits(out, 30, wire::bits_of(settings.stationary_period));
}

// A move's checks: the room for the other edition, and the record by its own.
fn check_move(source: &[u8], from: Edition, to: Edition, room: usize) -> Result<(), Refusal>
    ensures { number_in result ≡ refusal_of (move_checks from to source.now room) }
{
    if room != to.layout.size {
        return Err(Refusal::Length);
    }
    check_edition(source, from, 0, true)
}

// Those of a move up, and then of the settings that were given.
fn check_up(source: &[u8], settings: BiasSettings, room: usize) -> Result<(), Refusal>
    ensures { number_in result ≡ refusal_of (up_checks source.now settings room) }
{
    check_move(source, FIRST, SECOND, room)?;
    settings.check()
}

// Writes a record of the first edition as one of the second; a refused call leaves the buffer as it was.
pub fn move_up(source: &[u8], settings: BiasSettings, out: &mut [u8]) -> Result<(), Refusal>
    ensures { MovesUp source.now settings out.old out.new (number_in result) }
{
    check_up(source, settings, out.len())?;
    put_part(source, SECOND.layout.version, out);
    put_settings(settings, out);
    Ok(())
}

// Writes a record of the second edition as one of the first; a refused call leaves the buffer as it was.
pub fn move_down(source: &[u8], out: &mut [u8]) -> Result<(), Refusal>
    ensures { MovesDown source.now out.old out.new (number_in result) }
{
    check_move(source, SECOND, FIRST, out.len())?;
    put_part(source, FIRST.layout.version, out);
    Ok(())
}
