// Headings without a compass: one that is set, an update with one from elsewhere, and an update with none. Angles stay in degrees.
// State, sensors and heading stand apart, as the Rust's calls have them, and as every theorem of these calls does.
#![tactic(auto)]

ghost use Rattle.std.specs.Prelude.{◌≡◌};
ghost use Rattle.answer.specs.Refusals.{refusal_of};
ghost use Rattle.answer.specs.Rows.{number_in};
ghost use Rattle.heading.specs.Calls.{heading_checks, given_checks, SetsHeading, UpdatesHeading, UpdatesUnaided};

use ahrs::Ahrs;
use answer::{Answer, Change, Reading, Refusal};
use vector::Vector;

pub mod point; // point.rt: Point, yaw, roll
pub mod turn; // turn.rt: headed, heading_magnetometer

// Whether what was given is finite, and the heading not beyond 360 degrees either way.
#[tactic(auto, unfolding(answer::specs::Refusals::refusal_of))]
fn check_heading(given: bool, heading: f32) -> Result<(), Refusal>
    ensures { number_in result ≡ refusal_of (heading_checks given heading) }
{
    if !(given & number::is_finite(heading)) {
        return Err(Refusal::NotFinite);
    }
    if !trig::in_turn(heading) {
        return Err(Refusal::OutOfRange);
    }
    Ok(())
}

// 4 and 5 of the state come first.
#[tactic(auto, using(crate::proofs::Given::read_first, crate::proofs::Given::refused_read))]
fn check(state: Ahrs, given: bool, heading: f32) -> Result<(), Refusal>
    ensures { number_in result ≡ refusal_of (given_checks state given heading) }
{
    state.quaternion()?;
    check_heading(given, heading)
}

// Yaw becomes the heading; roll and pitch stay.
pub fn set_heading(state: Ahrs, heading: f32) -> Change<Ahrs>
    ensures { SetsHeading state heading result }
{
    if let Err(refusal) = check(state, true, heading) {
        return Change::refused(state, refusal);
    }
    let at = point::yaw(state.quaternion);
    let quaternion = turn::headed(state.quaternion, heading);
    if !(at.is_finite() & quaternion.is_finite()) {
        return Change::refused(state, Refusal::Overflow);
    }
    Change::made(Ahrs {
        quaternion,
        ..state
    })
}

// An update with the magnetometer that would show the heading.
pub fn update_external_heading(
    state: Ahrs,
    gyroscope: Vector,
    accelerometer: Vector,
    heading: f32,
) -> Reading<Ahrs>
    ensures { UpdatesHeading state gyroscope accelerometer heading result }
{
    let given = gyroscope.is_finite() & accelerometer.is_finite();
    if let Err(refusal) = check(state, given, heading) {
        return Reading::refused(state, refusal);
    }
    let at = point::roll(state.quaternion);
    let magnetometer = turn::heading_magnetometer(state.quaternion, heading);
    let reading = state.update(gyroscope, accelerometer, magnetometer);
    // what was given is finite, so that any refusal left is for what comes out
    if !at.is_finite() | reading.answer.check().is_err() {
        return Reading::refused(state, Refusal::Overflow);
    }
    reading
}

// An update without magnetometer; in startup heading 0 is set then. Where either half is refused, neither is kept.
pub fn update_no_magnetometer(
    state: Ahrs,
    gyroscope: Vector,
    accelerometer: Vector,
) -> Reading<Ahrs>
    ensures { UpdatesUnaided state gyroscope accelerometer result }
{
    let reading = state.update(gyroscope, accelerometer, Vector::ZERO);
    if reading.answer.check().is_err() {
        return reading;
    }
    if !reading.state.startup {
        return reading;
    }
    let zeroed = set_heading(reading.state, 0.0);
    if let Err(refusal) = zeroed.result {
        return Reading::refused(state, refusal);
    }
    let q = zeroed.state.quaternion;
    Reading {
        state: zeroed.state,
        answer: Answer::Oriented(q.w, q.x, q.y, q.z),
    }
}
