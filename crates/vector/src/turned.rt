// A vector turned by a mounting, by number, in the order of `RemapAlignment::ALL`. It is a number, and its axes are a word of two bytes,
// since one from a record may be any number, and a turn's size in flash rests on a table of such words.
ghost use Rattle.std.specs.Prelude.{◌≡◌, ◌<◌, ◌/◌, ◌%◌};
ghost use Rattle.answer.specs.Promises.{Answers};
ghost use Rattle.vector.specs.Axes.{axes_of};
ghost use Rattle.vector.specs.Inner.{read_by, Within};
ghost use Rattle.vector.specs.Mounting.{turn_of};
ghost use Rattle.vector.specs.Turned.{turn_checks, turned_answer};
ghost use Rattle.vector.specs.Vectors.{finite_vector};

use super::Vector;
use answer::{Answer, Refusal};

// What a mounting reads for x, y and z, five bits each: 0, 1 and 2 are the sensor's axes, 3, 4 and 5 their negatives; nothing for a number
// that is no mounting's. The compiler makes a table of the match. Three bits would do; of five it takes x by a shift alone.
#[tactic(auto, unfolding(crate::specs::Mounting::mounting_of))]
pub fn axes_of(mounting: u8) -> Option<u16>
    ensures { result ≡ axes_of mounting }
{
    match mounting {
        0 => Some(0b00000_00001_00010),
        1 => Some(0b00000_00101_00001),
        2 => Some(0b00000_00100_00101),
        3 => Some(0b00000_00010_00100),
        4 => Some(0b00011_00001_00101),
        5 => Some(0b00011_00010_00001),
        6 => Some(0b00011_00100_00010),
        7 => Some(0b00011_00101_00100),
        8 => Some(0b00001_00011_00010),
        9 => Some(0b00001_00101_00011),
        10 => Some(0b00001_00000_00101),
        11 => Some(0b00001_00010_00000),
        12 => Some(0b00100_00000_00010),
        13 => Some(0b00100_00101_00000),
        14 => Some(0b00100_00011_00101),
        15 => Some(0b00100_00010_00011),
        16 => Some(0b00010_00001_00011),
        17 => Some(0b00010_00000_00001),
        18 => Some(0b00010_00100_00000),
        19 => Some(0b00010_00011_00100),
        20 => Some(0b00101_00001_00000),
        21 => Some(0b00101_00011_00001),
        22 => Some(0b00101_00100_00011),
        23 => Some(0b00101_00000_00100),
        _ => None,
    }
}

// What `is_finite` answers, with a test less: x - x and z - z are zeros or NaNs, and their sum is a NaN exactly when one of them is.
fn all_finite(v: Vector) -> bool
    ensures { result ≡ finite_vector v }
{
    let xz = (v.x - v.x) + (v.z - v.z);
    let y = v.y - v.y;
    (xz == xz) & (y == y)
}

impl Vector {
    // The vector that the axes read. The last place is never read; with it the compiler stores four floats at once.
    fn read_by(self, axes: u16) -> Answer
        requires { Within axes }
        ensures { result ≡ turned_answer (read_by axes self) }
    {
        let signed = [self.x, self.y, self.z, -self.x, -self.y, -self.z, -self.z];
        let x = (axes / 1024) as usize;
        let y = (axes / 32 % 32) as usize;
        let z = (axes % 32) as usize;
        Answer::Turned(signed[x], signed[y], signed[z])
    }

    pub fn turned(self, mounting: u8) -> Answer
        ensures { Answers (turn_checks self mounting) (turned_answer (turn_of mounting self)) result }
    {
        let Some(axes) = axes_of(mounting) else {
            return Answer::Refused(Refusal::Unknown);
        };
        if !all_finite(self) {
            return Answer::Refused(Refusal::NotFinite);
        }
        self.read_by(axes)
    }
}
