// A call's record: sixteen words of 32 bits, low byte first. Word 0 is the call's number, plus 0x100 where the state is not to be
// printed; the arguments follow.
ghost use Rattle.std.specs.Prelude.{◌<◌};

use bias::BiasSettings;
use math::{Matrix, Quaternion};
use vector::Vector;

// A record's bytes. Which call it is for stands there as a number, and so do the calls where they are answered: the numbers are the script's,
// and an enum would say each of them twice more.
pub(crate) type Record = [u8; 64];

// Word n. That n is below 16 is a clause here and where it is handed on: at nearly every call it is a number written out, for which a type is no
// plainer.
pub(crate) fn word_at(record: &Record, n: usize) -> u32
    requires { n < 16 }
{
    wire::bits_at(record, 4 * n)
}

pub(crate) fn float_at(record: &Record, n: usize) -> f32
    requires { n < 16 }
{
    wire::float_of(word_at(record, n))
}

pub(crate) fn vector_at(record: &Record, n: usize) -> Vector
    requires { n < 14 }
{
    Vector::new(
        float_at(record, n),
        float_at(record, n + 1),
        float_at(record, n + 2),
    )
}

pub(crate) fn quaternion_at(record: &Record, n: usize) -> Quaternion
    requires { n < 13 }
{
    Quaternion::new(
        float_at(record, n),
        float_at(record, n + 1),
        float_at(record, n + 2),
        float_at(record, n + 3),
    )
}

// The settings of the estimator, in the order of its start.
pub(crate) fn bias_settings_at(record: &Record, n: usize) -> BiasSettings
    requires { n < 13 }
{
    BiasSettings {
        sample_rate: float_at(record, n),
        stationary_threshold: float_at(record, n + 1),
        stationary_period: float_at(record, n + 2),
        cutoff_frequency: float_at(record, n + 3),
    }
}

// The matrix of words 1 to 9, by rows.
pub(crate) fn matrix(record: &Record) -> Matrix {
    Matrix {
        xx: float_at(record, 1),
        xy: float_at(record, 2),
        xz: float_at(record, 3),
        yx: float_at(record, 4),
        yy: float_at(record, 5),
        yz: float_at(record, 6),
        zx: float_at(record, 7),
        zy: float_at(record, 8),
        zz: float_at(record, 9),
    }
}

// The number of a mounting or a convention. One that no byte holds is refused like 255.
pub(crate) fn choice_at(record: &Record, n: usize) -> u8
    requires { n < 16 }
{
    u8::try_from(word_at(record, n)).unwrap_or(u8::MAX)
}

// A signed number in two's complement.
pub(crate) fn whole_at(record: &Record, n: usize) -> i32
    requires { n < 16 }
{
    i32::from_le_bytes(word_at(record, n).to_le_bytes())
}

pub(crate) fn length_at(record: &Record, n: usize) -> usize
    requires { n < 16 }
{
    word_at(record, n) as usize
}
