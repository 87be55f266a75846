// The calls of the filter: 80 to 95.
ghost use Rattle.std.specs.Prelude.{◌<◌};

use super::record::{Record, choice_at, float_at, quaternion_at, vector_at};
use super::said;
use super::said::{Said, Told, answered, begun, changed, not_begun, started};
use super::words::Words;
use ahrs::read::InternalStates;
use ahrs::{Ahrs, Limit, Settings};
use answer::{Reading, Refusal};

// From word n on, with squared limits.
pub(crate) fn squared_at(record: &Record, n: usize) -> Settings
    requires { n < 10 }
{
    Settings {
        sample_rate: float_at(record, n),
        convention: choice_at(record, n + 1),
        gain: float_at(record, n + 2),
        gyroscope_range: float_at(record, n + 3),
        acceleration_rejection: Limit::Squared(float_at(record, n + 4)),
        magnetic_rejection: Limit::Squared(float_at(record, n + 5)),
        rejection_timeout: float_at(record, n + 6),
    }
}

// The same words, but angles in place of the squared limits. The angles of words 8 and 9 are for the Rust, which derives squared limits from
// them.
fn in_degrees(record: &Record) -> Settings {
    Settings {
        acceleration_rejection: Limit::Degrees(float_at(record, 5)),
        magnetic_rejection: Limit::Degrees(float_at(record, 6)),
        ..squared_at(record, 1)
    }
}

fn ratios(states: InternalStates) -> Words {
    Words::none()
        .with(states.acceleration_recovery_trigger)
        .with(states.magnetic_recovery_trigger)
}

fn marks(states: InternalStates) -> Words {
    Words::none()
        .with(states.accelerometer_ignored)
        .with(states.magnetometer_ignored)
}

fn update(ahrs: Ahrs, record: &Record) -> Reading<Ahrs> {
    let gyroscope = vector_at(record, 1);
    let accelerometer = vector_at(record, 4);
    let magnetometer = vector_at(record, 7);
    ahrs.update(gyroscope, accelerometer, magnetometer)
}

fn update_external_heading(ahrs: Ahrs, record: &Record) -> Reading<Ahrs> {
    let gyroscope = vector_at(record, 1);
    let accelerometer = vector_at(record, 4);
    let heading = float_at(record, 7);
    heading::update_external_heading(ahrs, gyroscope, accelerometer, heading)
}

fn update_no_magnetometer(ahrs: Ahrs, record: &Record) -> Reading<Ahrs> {
    let gyroscope = vector_at(record, 1);
    let accelerometer = vector_at(record, 4);
    heading::update_no_magnetometer(ahrs, gyroscope, accelerometer)
}

// What a call that only reads the state says.
fn said_of(ahrs: Ahrs, call: u32) -> Said {
    match call {
        0x87 => said::read(ahrs.quaternion()),
        0x88 => said::read(ahrs.gravity()),
        0x89 => said::read(ahrs.linear_acceleration()),
        0x8A => said::read(ahrs.earth_acceleration()),
        0x8B => said::read(ahrs.flags()),
        0x8C => said::read(ahrs.internal_states().map(ratios)),
        0x8D => said::read(ahrs.internal_states().map(marks)),
        0x8E => said::read(ahrs.settings()),
        0x8F => said::read(ahrs.flags().map(|flags| flags.overrange_recovery)),
        0x92 => said::read(ahrs.ignored_counts()),
        _ => said::refused(Refusal::Length),
    }
}

fn tell(ahrs: Ahrs, call: u32, record: &Record) -> Told<Ahrs> {
    match call {
        0x81 => changed(ahrs.set_settings(squared_at(record, 1))),
        0x91 => changed(ahrs.set_settings(in_degrees(record))),
        0x82 => changed(ahrs.set_sample_period(float_at(record, 1))),
        0x83 => changed(ahrs.restart()),
        0x84 => changed(ahrs.skip_startup()),
        0x85 => changed(ahrs.set_quaternion(quaternion_at(record, 1))),
        0x86 => answered(update(ahrs, record)),
        0x93 => changed(heading::set_heading(ahrs, float_at(record, 1))),
        0x94 => answered(update_external_heading(ahrs, record)),
        0x95 => answered(update_no_magnetometer(ahrs, record)),
        _ => Told {
            state: ahrs,
            said: said_of(ahrs, call),
        },
    }
}

pub(crate) fn answer(filter: Option<Ahrs>, call: u32, record: &Record) -> Told<Option<Ahrs>> {
    match (call, filter) {
        (0x80, _) => started(filter, Ahrs::with_settings(squared_at(record, 1))),
        (0x90, _) => started(filter, Ahrs::with_settings(in_degrees(record))),
        (_, Some(ahrs)) => begun(tell(ahrs, call, record)),
        (_, None) => not_begun(),
    }
}
