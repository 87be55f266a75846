// The bench table's rows of the filter that are run, each a short story told by calls of the filter.
use ahrs::read::{Flags, InternalStates};
use ahrs::{Ahrs, Axes, Limit, Settings};
use answer::Change;
use math::Quaternion;
use vector::Vector;

#[derive(Clone, Copy, Debug, PartialEq, Eq)]
pub(crate) enum Sensor {
    Accelerometer,
    Compass,
}

// What is shown of a sensor's rejection: whether the last update ignored it, its recovery flag, and its trigger as a fraction of the timeout.
#[derive(Clone, Copy, Debug)]
pub(crate) struct Standing {
    pub ignored: bool,
    pub flag: bool,
    pub ratio: f32,
}

// The squared limit of 10 degrees.
const TEN_DEGREES: f32 = 0.0075384225;

// Limits of 10 degrees.
pub(crate) fn settings(sample_rate: f32, gain: f32, rejection_timeout: f32) -> Settings {
    Settings {
        sample_rate,
        convention: 0,
        gain,
        gyroscope_range: 2000.0,
        acceleration_rejection: Limit::Squared(TEN_DEGREES),
        magnetic_rejection: Limit::Squared(TEN_DEGREES),
        rejection_timeout,
    }
}

// An update of a pole that stands still.
fn still(state: Ahrs, accelerometer: Vector, magnetometer: Vector) -> Ahrs {
    state
        .update(Vector::ZERO, accelerometer, magnetometer)
        .state
}

// The state after some such updates.
pub(crate) fn held(state: Ahrs, accelerometer: Vector, magnetometer: Vector, updates: u32) -> Ahrs {
    (0..updates).fold(state, |now, _| still(now, accelerometer, magnetometer))
}

// The accelerometer reads (x, 0, z), and the magnetometer nothing.
pub(crate) fn after(state: Ahrs, x: f32, z: f32, updates: u32) -> Ahrs {
    held(state, Vector::new(x, 0.0, z), Vector::ZERO, updates)
}

fn flags(state: Ahrs) -> Flags {
    state.flags().unwrap_or(Flags {
        startup: false,
        overrange_recovery: Axes::NONE,
        acceleration_recovery: false,
        magnetic_recovery: false,
    })
}

fn states(state: Ahrs) -> InternalStates {
    state.internal_states().unwrap_or(InternalStates {
        accelerometer_ignored: false,
        acceleration_recovery_trigger: 0.0,
        magnetometer_ignored: false,
        magnetic_recovery_trigger: 0.0,
    })
}

// Whether startup goes on after some updates.
pub(crate) fn stays_in_startup(settings: Settings, updates: u32) -> bool {
    match Ahrs::with_settings(settings) {
        Ok(fresh) => flags(after(fresh, 0.0, 1.0, updates)).startup,
        Err(_) => false,
    }
}

// The half residual of the first update out of startup, and whether the accelerometer was ignored.
#[derive(Clone, Copy, Debug)]
pub(crate) struct Verdict {
    pub residual: Vector,
    pub ignored: bool,
}

// Judges an accelerometer reading of (x, 0, z) by a squared limit.
pub(crate) fn judged(x: f32, z: f32, limit: f32) -> Verdict {
    let given = Settings {
        acceleration_rejection: Limit::Squared(limit),
        ..settings(10.0, 0.5, 1.0)
    };
    let Ok(fresh) = Ahrs::with_settings(given) else {
        return Verdict {
            residual: Vector::ZERO,
            ignored: false,
        };
    };
    let acceleration = after(fresh.skip_startup().state, x, z, 1).acceleration;
    Verdict {
        residual: acceleration.half_residual,
        ignored: acceleration.ignored,
    }
}

// An update of an upright pole that turns at these rates, in degrees a second.
pub(crate) fn turned(state: Ahrs, x: f32, y: f32, z: f32) -> Ahrs {
    state
        .update(
            Vector::new(x, y, z),
            Vector::new(0.0, 0.0, 1.0),
            Vector::ZERO,
        )
        .state
}

// The axes that the flags show.
pub(crate) fn over_range(state: Ahrs) -> Axes {
    flags(state).overrange_recovery
}

pub(crate) fn shown(state: Ahrs, sensor: Sensor) -> Standing {
    let flags = flags(state);
    let states = states(state);
    match sensor {
        Sensor::Accelerometer => Standing {
            ignored: states.accelerometer_ignored,
            flag: flags.acceleration_recovery,
            ratio: states.acceleration_recovery_trigger,
        },
        Sensor::Compass => Standing {
            ignored: states.magnetometer_ignored,
            flag: flags.magnetic_recovery,
            ratio: states.magnetic_recovery_trigger,
        },
    }
}

// T = 10 and five readings over the limit, so that the trigger is 5; then T = 3.
pub(crate) fn lowered(fresh: Ahrs) -> Ahrs {
    after(fresh.skip_startup().state, 1.0, 0.0, 5)
        .set_settings(settings(10.0, 0.5, 0.3))
        .state
}

// An update, its gyroscope reading (x, 0, 0): the state after it, and whether it is refused.
pub(crate) fn read(
    state: Ahrs,
    x: f32,
    accelerometer: Vector,
    magnetometer: Vector,
) -> Change<Ahrs> {
    let reading = state.update(Vector::new(x, 0.0, 0.0), accelerometer, magnetometer);
    Change {
        state: reading.state,
        result: reading.answer.check(),
    }
}

// A quaternion (w, x, 0, 0) set.
pub(crate) fn set(fresh: Ahrs, w: f32, x: f32) -> Change<Ahrs> {
    fresh.set_quaternion(Quaternion::new(w, x, 0.0, 0.0))
}

// An update of a pole that stands upright.
pub(crate) fn upright(state: Ahrs) -> Change<Ahrs> {
    read(state, 0.0, Vector::new(0.0, 0.0, 1.0), Vector::ZERO)
}
