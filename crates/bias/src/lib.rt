// The gyroscope's bias estimator, by value: the Rust's bias.rs. A call takes the state and hands it back beside the answer.
#![tactic(auto)]

ghost use Rattle.std.specs.Prelude.{◌≡◌};
ghost use Rattle.answer.specs.Refusals.{refusal_of};
ghost use Rattle.answer.specs.Rows.{number_in};
ghost use Rattle.bias.specs.Settings.{finite_settings};
ghost use Rattle.bias.specs.Estimator.{finite_bias, advanced_of};
ghost use Rattle.bias.specs.Calls.{settings_checks, reading_checks, offset_checks, state_checks, change_checks};
ghost use Rattle.bias.specs.Calls.{Starts, Reads, SetsOffset, Restarts, SetsSettings};
ghost use Rattle.bias.specs.Inner.{Derives, Advances, all_finite};

use answer::{Answer, Change, Reading, Refusal};
use vector::Vector;

pub mod lent; // lent.rt: update_lent
pub mod reads; // reads.rt: settings, offset, is_active

pub use lent::update_lent;

#[derive(Clone, Copy, Debug, PartialEq)]
pub struct BiasSettings {
    pub sample_rate: f32,
    pub stationary_threshold: f32,
    pub stationary_period: f32,
    pub cutoff_frequency: f32,
}

#[derive(Clone, Copy, Debug, PartialEq)]
pub struct Bias {
    pub settings: BiasSettings,
    pub filter_coefficient: f32,
    pub timeout: u32,
    pub timer: u32,
    pub offset: Vector,
}

// What is worked out from the settings.
#[derive(Clone, Copy, Debug)]
pub struct Derived {
    pub filter_coefficient: f32,
    pub timeout: u32,
}

const PI: f32 = 3.1415927;

impl BiasSettings {
    #[tactic(auto, unfolding(crate::specs::Settings::finite_settings))]
    pub fn is_finite(self) -> bool
        ensures { result ≡ finite_settings self }
    {
        number::is_finite(self.sample_rate)
            & number::is_finite(self.stationary_threshold)
            & number::is_finite(self.stationary_period)
            & number::is_finite(self.cutoff_frequency)
    }

    #[tactic(auto, unfolding(crate::specs::Settings::coefficient_of, crate::specs::Settings::timeout_of))]
    fn derived(self) -> Derived
        ensures { Derives self result }
    {
        Derived {
            filter_coefficient: 2.0 * PI * self.cutoff_frequency * (1.0 / self.sample_rate),
            timeout: number::to_u32(self.stationary_period * self.sample_rate),
        }
    }

    // Whether an estimator starts with these settings.
    #[tactic(auto, unfolding(answer::specs::Refusals::refusal_of))]
    pub fn check(self) -> Result<(), Refusal>
        ensures { number_in result ≡ refusal_of (settings_checks self) }
    {
        if !self.is_finite() {
            return Err(Refusal::NotFinite);
        }
        if !(self.sample_rate > 0.0) {
            return Err(Refusal::OutOfRange);
        }
        if !number::is_finite(self.derived().filter_coefficient) {
            return Err(Refusal::Overflow);
        }
        Ok(())
    }

    // The number of that refusal, 0 where an estimator starts with these settings.
    pub fn refusal(self) -> u8
        ensures { result ≡ refusal_of (settings_checks self) }
    {
        answer::number_in(self.check())
    }
}

impl Bias {
    pub fn with_settings(settings: BiasSettings) -> Result<Bias, Refusal>
        ensures { Starts settings result }
    {
        settings.check()?;
        let derived = settings.derived();
        Ok(Bias {
            settings,
            filter_coefficient: derived.filter_coefficient,
            timeout: derived.timeout,
            timer: 0,
            offset: Vector::ZERO,
        })
    }

    // A settings change's checks: the state's before the settings' own.
    #[tactic(auto, unfolding(answer::specs::Refusals::refusal_of))]
    fn check_change(self, settings: BiasSettings) -> Result<(), Refusal>
        ensures { number_in result ≡ refusal_of (change_checks self settings) }
    {
        if !self.is_finite() {
            return Err(Refusal::NotFinite);
        }
        settings.check()
    }

    // Other settings; timer and offset are kept.
    pub fn set_settings(self, settings: BiasSettings) -> Change<Bias>
        ensures { SetsSettings self settings result }
    {
        if let Err(refusal) = self.check_change(settings) {
            return Change::refused(self, refusal);
        }
        let derived = settings.derived();
        Change::made(Bias {
            settings,
            filter_coefficient: derived.filter_coefficient,
            timeout: derived.timeout,
            ..self
        })
    }

    // Whether no float of the state is a NaN or an infinity.
    #[tactic(auto, unfolding(crate::specs::Estimator::finite_bias))]
    pub fn is_finite(self) -> bool
        ensures { result ≡ finite_bias self }
    {
        self.settings.is_finite()
            & number::is_finite(self.filter_coefficient)
            & self.offset.is_finite()
    }

    // The state's own check.
    #[tactic(auto, unfolding(answer::specs::Refusals::refusal_of))]
    fn check(self) -> Result<(), Refusal>
        ensures { number_in result ≡ refusal_of (state_checks self) }
    {
        if !self.is_finite() {
            return Err(Refusal::NotFinite);
        }
        Ok(())
    }

    // The state after a reading whose corrected value is `corrected`.
    #[tactic(auto, unfolding(crate::specs::Estimator::advanced_of))]
    fn advanced(self, corrected: Vector) -> Bias
        ensures { result ≡ advanced_of self corrected }
    {
        let timer = self.timer;
        let mut next = self;
        if corrected.exceeds(self.settings.stationary_threshold) {
            next.timer = 0;
            return next;
        }
        if timer < self.timeout {
            next.timer = timer + 1;
            return next;
        }
        next.offset = self.offset.add(corrected.mul(self.filter_coefficient));
        next
    }

    // Whether the state, the corrected reading and the next state are finite. Where the offset grew, its being finite says so of all that it grew from.
    fn all_finite(self, corrected: Vector, next: Bias) -> bool
        requires { next ≡ advanced_of self corrected }
        ensures { result ≡ all_finite self corrected next }
    {
        let settings = self.settings;
        let grown = next.offset;
        if corrected.exceeds(settings.stationary_threshold) | (self.timer < self.timeout) {
            return self.is_finite() & corrected.is_finite();
        }
        settings.is_finite() & grown.is_finite()
    }

    // A reading's checks. Only one that is refused looks at what was given: not finite, or too large for what is made of it.
    fn check_reading(self, gyroscope: Vector, corrected: Vector, next: Bias) -> Result<(), Refusal>
        requires { Advances self gyroscope corrected next }
        ensures { number_in result ≡ refusal_of (reading_checks self gyroscope) }
    {
        if self.all_finite(corrected, next) {
            return Ok(());
        }
        if self.is_finite() & gyroscope.is_finite() {
            return Err(Refusal::Overflow);
        }
        Err(Refusal::NotFinite)
    }

    // Subtracts the offset from a reading, and learns from it; the answer is of before that growth.
    pub fn update(self, gyroscope: Vector) -> Reading<Bias>
        ensures { Reads self gyroscope result }
    {
        let corrected = gyroscope.sub(self.offset);
        let next = self.advanced(corrected);
        if let Err(refusal) = self.check_reading(gyroscope, corrected, next) {
            return Reading::refused(self, refusal);
        }
        Reading {
            state: next,
            answer: Answer::Rates(corrected.x, corrected.y, corrected.z),
        }
    }

    // The check of an offset that is set.
    #[tactic(auto, unfolding(answer::specs::Refusals::refusal_of))]
    fn check_offset(self, offset: Vector) -> Result<(), Refusal>
        ensures { number_in result ≡ refusal_of (offset_checks self offset) }
    {
        if !(self.is_finite() & offset.is_finite()) {
            return Err(Refusal::NotFinite);
        }
        Ok(())
    }

    // Sets the offset, and leaves the timer.
    pub fn set_offset(self, offset: Vector) -> Change<Bias>
        ensures { SetsOffset self offset result }
    {
        if let Err(refusal) = self.check_offset(offset) {
            return Change::refused(self, refusal);
        }
        Change::made(Bias { offset, ..self })
    }

    // Clears the timer and the offset, and keeps the settings.
    pub fn restart(self) -> Change<Bias>
        ensures { Restarts self result }
    {
        if let Err(refusal) = self.check() {
            return Change::refused(self, refusal);
        }
        Change::made(Bias {
            timer: 0,
            offset: Vector::ZERO,
            ..self
        })
    }
}
