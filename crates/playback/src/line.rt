// What is printed for a state: the line of its orientation.
ghost use Rattle.std.specs.Prelude.{◌≤◌, length};
ghost use Rattle.text.specs.Putting.{Puts};
ghost use Rattle.playback.specs.Printed.{line_of};

use math::Quaternion;

// The four bit patterns of an orientation.
pub(crate) fn put_line(q: Quaternion, out: &mut [u8]) -> usize
    requires { 36 ≤ length out.old }
    ensures { Puts (line_of q) out.old out.new result }
{
    let w = wire::bits_of(q.w);
    let x = wire::bits_of(q.x);
    let y = wire::bits_of(q.y);
    let z = wire::bits_of(q.z);
    text::put_words(w, x, y, z, out)
}
