// Root vectors: 8 bytes each, the bits of x and then the bits of its root, low byte first. Any NaN
// counts as any other.
ghost use Rattle.std.specs.Prelude.{◌≡◌, ◌≤◌};
ghost use Rattle.bench.specs.Vectors.{right_of};

use std::io::Read;

#[derive(Clone, Copy, Debug)]
pub struct Tally {
    pub read: u64,
    pub wrong: u64,
}

fn is_right(v: &[u8]) -> bool
    ensures { result ≡ right_of v.now }
{
    let x = wire::float_of(wire::bits_at(v, 0));
    wire::bits_of(root::sqrtf(x)) == wire::bits_at(v, 4)
}

// A last vector that is cut short is not counted.
pub(crate) fn run(rt: &HostRuntime) -> Tally
    ensures { result.wrong ≤ result.read }
{
    let mut tally = Tally { read: 0, wrong: 0 };
    let mut input = rt.reader();
    let mut v = [0u8; 8];
    for read in 0..u64::MAX {
        if input.read_exact(&mut v).is_err() {
            break;
        }
        if !is_right(&v) {
            tally.wrong += 1;
        }
        tally.read = read + 1;
    }
    tally
}
