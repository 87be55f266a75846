// What the stories show: of one step, of the range, of startup, and of the rejection.
use super::filter::{Sensor, Standing};
use super::locked::Story;
use super::show::{Bits, OfVector, Out};
use super::{filter, locked};
use ahrs::Ahrs;
use answer::Change;
use std::fmt::{self, Write};
use vector::{Components, Vector};

fn yes(is_so: bool) -> &'static str {
    if is_so { "yes" } else { "no" }
}

fn print_step() -> fmt::Result {
    let limit = filter::judged(0.5, 1.0, 1.0).residual.norm_squared();
    let below = wire::float_of(wire::bits_of(limit).wrapping_sub(1));
    let equal = filter::judged(0.5, 1.0, limit).ignored;
    let above = filter::judged(0.5, 1.0, below).ignored;
    writeln!(
        Out,
        "squared residual equal to the limit is ignored: {}",
        yes(equal)
    )?;
    writeln!(
        Out,
        "squared residual a step above the limit is ignored: {}",
        yes(above)
    )?;
    writeln!(
        Out,
        "residual at a dot of 0:{}",
        OfVector(filter::judged(1.0, 0.0, 1.0).residual)
    )
}

fn print_range(name: &str, state: Ahrs) -> fmt::Result {
    let axes = filter::over_range(state);
    let x = if axes.x { " x" } else { "" };
    let y = if axes.y { " y" } else { "" };
    let z = if axes.z { " z" } else { "" };
    let none = if axes.any() { "" } else { " none" };
    writeln!(Out, "{name}, over range:{x}{y}{z}{none}")
}

// At 98 % of the range and a step above it; the latest knock takes the place of the one before, and is shown while startup goes on.
fn print_knocks() -> fmt::Result {
    let Ok(fresh) = Ahrs::with_settings(filter::settings(10.0, 0.5, 1.0)) else {
        return Ok(());
    };
    print_range("1960 of 2000", filter::turned(fresh, 1960.0, 0.0, 0.0))?;
    print_range(
        "1960.0001 of 2000",
        filter::turned(fresh, 1960.0001, 0.0, 0.0),
    )?;
    let first = filter::turned(fresh, 1961.0, -1961.0, 1960.0);
    print_range("a knock about x and y", first)?;
    let second = filter::turned(first, 0.0, 0.0, -2000.0);
    print_range("then one about z alone", second)?;
    print_range("28 updates later", filter::after(second, 0.0, 1.0, 28))?;
    print_range("30 updates later", filter::after(second, 0.0, 1.0, 30))?;
    print_range("or startup skipped", second.skip_startup().state)
}

fn print_startup() -> fmt::Result {
    let once = filter::stays_in_startup(filter::settings(10.0, 10.0, 1.0), 1);
    let long = filter::stays_in_startup(filter::settings(0.25, 11.0, 1.0), 1000);
    let small = filter::stays_in_startup(filter::settings(1000000000.0, 0.5, 1.0), 1000);
    writeln!(Out, "gain 10, in startup after 1 update: {}", yes(once))?;
    writeln!(
        Out,
        "gain 11 and period 4, in startup after 1000 updates: {}",
        yes(long)
    )?;
    writeln!(
        Out,
        "a fall too small to change 10, in startup after 1000 updates: {}",
        yes(small)
    )
}

fn print_after(name: &str, change: Change<Ahrs>) -> fmt::Result {
    let number = answer::number_in(change.result);
    let shown = filter::shown(change.state, Sensor::Accelerometer);
    writeln!(
        Out,
        "after {name}, answer {number}: ratio{}, recovery flag up: {}",
        Bits(shown.ratio),
        yes(shown.flag)
    )
}

// A zero of its own sensor and a refused reading leave it; a reading that is accepted, be it over the limit, and an overrange end the ratio above 1.
fn print_readings(lowered: Ahrs) -> fmt::Result {
    let zero = Vector::ZERO;
    let level = Vector::new(0.0, 0.0, 1.0);
    let aside = Vector::new(1.0, 0.0, 0.0);
    let none = Vector::new(0.0, 0.0, wire::float_of(0x7fc0_0000));
    let elsewhere = filter::read(lowered, 0.0, zero, aside);
    print_after("a reading of the magnetometer alone", elsewhere)?;
    print_after("a NaN", filter::read(lowered, 0.0, none, zero))?;
    print_after("a good reading", filter::read(lowered, 0.0, level, zero))?;
    print_after(
        "a reading over the limit",
        filter::read(lowered, 0.0, aside, zero),
    )?;
    let over = filter::read(lowered, 2000.0, zero, zero);
    print_after("an overrange, and no reading", over)
}

// A restart ends it; of new settings it is T that does.
fn print_changes(lowered: Ahrs) -> fmt::Result {
    let same = lowered.set_settings(filter::settings(10.0, 0.5, 0.3));
    let longer = lowered.set_settings(filter::settings(10.0, 0.5, 1.0));
    print_after("a restart", lowered.restart())?;
    print_after("T set to 3 again", same)?;
    print_after("T set to 10", longer)
}

fn print_lowered() -> fmt::Result {
    let Ok(fresh) = Ahrs::with_settings(filter::settings(10.0, 0.5, 1.0)) else {
        return Ok(());
    };
    let state = filter::lowered(fresh);
    let shown = filter::shown(state, Sensor::Accelerometer);
    let (ratio, flag) = (Bits(shown.ratio), yes(shown.flag));
    writeln!(
        Out,
        "T lowered from 10 to 3 at trigger 5: ratio{ratio}, recovery flag up: {flag}"
    )?;
    print_readings(state)?;
    print_changes(state)
}

fn print_standing(name: &str, text: &str, s: Standing) -> fmt::Result {
    let used = if s.ignored { "ignored" } else { "used" };
    writeln!(
        Out,
        "{name} {text}, {used}: ratio{}, recovery flag up: {}",
        Bits(s.ratio),
        yes(s.flag)
    )
}

fn print_story(name: &str, sensor: Sensor, story: Story) -> fmt::Result {
    let locked_out = filter::shown(story.locked_out, sensor);
    let begun = filter::shown(story.begun, sensor);
    let recovering = filter::shown(story.recovering, sensor);
    let back = filter::shown(story.back, sensor);
    print_standing(name, "over its limit, 500 readings", locked_out)?;
    print_standing(name, "over its limit, 501 readings", begun)?;
    print_standing(name, "then good, 55 readings", recovering)?;
    print_standing(name, "then good, 56 readings", back)
}

// T = 500 at 100 Hz: a compass that reads west for north, and an accelerometer that reads level for upright.
fn print_locked_out() -> fmt::Result {
    let Ok(fresh) = Ahrs::with_settings(filter::settings(100.0, 0.5, 5.0)) else {
        return Ok(());
    };
    let skipped = fresh.skip_startup().state;
    let upright = Vector::new(0.0, 0.0, 1.0);
    let north = Vector::new(1.0, 0.0, 0.0);
    let west = Vector::new(0.0, 1.0, 0.0);
    let compass = locked::run(skipped, upright, west);
    print_story("compass", Sensor::Compass, compass)?;
    let later = locked::lasts(compass.begun, upright, west);
    writeln!(
        Out,
        "compass left as it is, out of recovery {later} readings later"
    )?;
    let level = Vector::new(1.0, 0.0, 0.0);
    let accelerometer = locked::run(skipped, level, north);
    print_story("accelerometer", Sensor::Accelerometer, accelerometer)
}

pub(crate) fn print() -> fmt::Result {
    print_step()?;
    print_knocks()?;
    print_startup()?;
    print_lowered()?;
    print_locked_out()
}
