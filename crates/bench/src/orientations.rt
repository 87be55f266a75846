// Quaternions that are set, and one that overflows.
use super::filter;
use super::show::{Bits, OfQuaternion, Out};
use ahrs::Ahrs;
use answer::Change;
use math::Quaternion;
use std::fmt::{self, Write};
use vector::{Components, Vector};

fn print_set(fresh: Ahrs, w: f32, x: f32) -> fmt::Result {
    let number = answer::number_in(filter::set(fresh, w, x).result);
    let squared = Bits(Quaternion::new(w, x, 0.0, 0.0).norm_squared());
    writeln!(
        Out,
        "quaternion of squared norm{squared} set, answer {number}"
    )
}

// A quaternion is set where its squared norm is from 0.25 to 4: both ends, and a step outside each.
fn print_ends() -> fmt::Result {
    let Ok(fresh) = Ahrs::with_settings(filter::settings(100.0, 0.5, 1.0)) else {
        return Ok(());
    };
    print_set(fresh, 0.0, 0.0)?;
    print_set(
        fresh,
        wire::float_of(0x3eff_ffff),
        wire::float_of(0x3900_0000),
    )?;
    print_set(fresh, 0.5, 0.0)?;
    print_set(fresh, 2.0, 0.0)?;
    print_set(fresh, 2.0, wire::float_of(0x3a40_0000))
}

fn print_answer(name: &str, change: Change<Ahrs>) -> fmt::Result {
    let number = answer::number_in(change.result);
    writeln!(
        Out,
        "{name}, answer {number}:{}",
        OfQuaternion(change.state.quaternion)
    )
}

// The smallest rate about one axis, at 100 Hz from a start, whose turn overflows; and what ends the zeros that it leaves.
fn print_overflow() -> fmt::Result {
    let Ok(fresh) = Ahrs::with_settings(filter::settings(100.0, 0.5, 1.0)) else {
        return Ok(());
    };
    let below = filter::read(
        fresh,
        wire::float_of(0x6633_0c9f),
        Vector::ZERO,
        Vector::ZERO,
    );
    print_answer("rate 66330c9f at 100 Hz", below)?;
    let over = filter::read(
        fresh,
        wire::float_of(0x6633_0ca0),
        Vector::ZERO,
        Vector::ZERO,
    );
    print_answer("rate 66330ca0 at 100 Hz", over)?;
    let state = over.state;
    print_answer("an update after it", filter::upright(state))?;
    print_answer("a restart after it", state.restart())?;
    print_answer("a quaternion set after it", filter::set(state, 0.5, 0.0))
}

pub(crate) fn print() -> fmt::Result {
    print_ends()?;
    print_overflow()
}
