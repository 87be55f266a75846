// How long something takes.
ghost use Rattle.std.specs.Prelude.{◌≤◌};

// How many steps it takes until something is so, of as many as are tried.
pub(crate) fn until<S: Copy, F: Fn(S) -> S, G: Fn(S) -> bool>(
    start: S,
    most: u32,
    step: F,
    is_so: G,
) -> u32
    requires steps { F.IsAlwaysCallable step }
    requires tests { G.IsAlwaysCallable is_so }
    ensures { result ≤ most }
{
    let mut state = start;
    for n in 0..most {
        if is_so(state) {
            return n;
        }
        state = step(state);
    }
    most
}
