// A still sensor from a fresh estimator: after how many readings it is active, and which reading first moves the offset.
ghost use Rattle.std.specs.Prelude.{◌≤◌};

use super::until::until;
use bias::{Bias, BiasSettings};
use vector::Vector;

#[derive(Clone, Copy, Debug)]
pub struct Still {
    pub active: u32,
    pub moves: u32,
}

// More readings than this are not tried.
const MOST: u32 = 1000;

fn settings(stationary_period: f32) -> BiasSettings {
    BiasSettings {
        sample_rate: 100.0,
        stationary_threshold: 3.0,
        stationary_period,
        cutoff_frequency: 0.02,
    }
}

fn read(state: Bias) -> Bias {
    state.update(Vector::new(0.5, -0.25, 0.0)).state
}

fn is_active(state: Bias) -> bool {
    matches!(state.is_active(), Ok(true))
}

fn has_moved(state: Bias) -> bool {
    !state.offset.is_zero()
}

// For a stationary period in seconds, at 100 readings a second.
pub(crate) fn run(stationary_period: f32) -> Still
    ensures { (result.active ≤ 1000) × (result.moves ≤ 1000) }
{
    let Ok(fresh) = Bias::with_settings(settings(stationary_period)) else {
        return Still {
            active: MOST,
            moves: MOST,
        };
    };
    Still {
        active: until(fresh, MOST, read, is_active),
        moves: until(fresh, MOST, read, has_moved),
    }
}
