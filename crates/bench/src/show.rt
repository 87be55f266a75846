// Where the bench prints, and floats as it prints them, by their bits.
use math::Quaternion;
use std::fmt;
use vector::Vector;

// The descriptor of standard output.
const STDOUT: i32 = 1;

// Standard output, to which each part of a line is written as it comes. What it doesn't take is let go, and what comes behind is tried all
// the same: `println!` would end the bench there.
#[derive(Clone, Copy, Debug)]
pub(crate) struct Out;

impl fmt::Write for Out {
    fn write_str(&mut self, text: &str) -> fmt::Result {
        io::write_all(STDOUT, text.as_bytes());
        Ok(())
    }
}

// A blank, and the bits in eight digits.
#[derive(Clone, Copy, Debug)]
pub(crate) struct Bits(pub f32);

impl fmt::Display for Bits {
    fn fmt<W: fmt::Write>(&self, f: &mut fmt::Formatter<W>) -> fmt::Result {
        write!(f, " {:08x}", wire::bits_of(self.0))
    }
}

#[derive(Clone, Copy, Debug)]
pub(crate) struct OfVector(pub Vector);

impl fmt::Display for OfVector {
    fn fmt<W: fmt::Write>(&self, f: &mut fmt::Formatter<W>) -> fmt::Result {
        let v = self.0;
        write!(f, "{}{}{}", Bits(v.x), Bits(v.y), Bits(v.z))
    }
}

#[derive(Clone, Copy, Debug)]
pub(crate) struct OfQuaternion(pub Quaternion);

impl fmt::Display for OfQuaternion {
    fn fmt<W: fmt::Write>(&self, f: &mut fmt::Formatter<W>) -> fmt::Result {
        let q = self.0;
        write!(f, "{}{}{}{}", Bits(q.w), Bits(q.x), Bits(q.y), Bits(q.z))
    }
}
