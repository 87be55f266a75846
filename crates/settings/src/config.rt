// What is derived from the settings, and which settings are sound.
ghost use Rattle.std.specs.Prelude.{◌≡◌};
ghost use Rattle.answer.specs.Refusals.{refusal_of};
ghost use Rattle.answer.specs.Rows.{number_in};
ghost use Rattle.settings.specs.Config.{known_convention, finite_settings, sound_settings, limit_of, derived_of, finite_config, settings_checks};
ghost use Rattle.settings.specs.Axes.{over_of};

use super::{Axes, Limit, NED, Settings};
use answer::Refusal;
use vector::Vector;

// What is derived from the settings. Whether overrange is on stands beside its threshold, and is no Option: a threshold that is
// handed in must be finite though overrange is off (`finite_config`), and theorem Over speaks of both.
#[derive(Clone, Copy, Debug, PartialEq)]
pub struct Config {
    pub sample_period: f32,
    pub gain: f32,
    pub startup_gain_rate: f32,
    pub overrange_enabled: bool,
    pub overrange_threshold: f32,
    pub acceleration_rejection: f32,
    pub magnetic_rejection: f32,
    pub rejection_timeout: i32,
}

pub const INITIAL_STARTUP_GAIN: f32 = 10.0;

const STARTUP_PERIOD: f32 = 3.0;

const OVERRANGE_FACTOR: f32 = 0.98;

impl Settings {
    // Whether the convention is one of the three.
    pub fn is_known(self) -> bool
        ensures { result ≡ known_convention self }
    {
        self.convention <= NED
    }

    #[tactic(auto, unfolding(crate::specs::Config::finite_settings))]
    pub fn is_finite(self) -> bool
        ensures { result ≡ finite_settings self }
    {
        number::is_finite(self.sample_rate)
            & number::is_finite(self.gain)
            & number::is_finite(self.gyroscope_range)
            & self.acceleration_rejection.is_finite()
            & self.magnetic_rejection.is_finite()
            & number::is_finite(self.rejection_timeout)
    }

    // A rate above 0, a limit of either kind in its range, and no timeout below 0.
    pub fn is_sound(self) -> bool
        ensures { result ≡ sound_settings self }
    {
        (self.sample_rate > 0.0)
            & self.acceleration_rejection.is_sound()
            & self.magnetic_rejection.is_sound()
            & !(self.rejection_timeout < 0.0)
    }

    // The limit in use: with gain or timeout 0.0 nothing is rejected.
    #[tactic(auto, unfolding(crate::specs::Config::limit_of))]
    fn limit(self, limit: Limit) -> f32
        ensures { result ≡ limit_of self limit }
    {
        if (self.gain != 0.0) & (self.rejection_timeout != 0.0) {
            return limit.squared();
        }
        number::MAX
    }

    // The Rust's `Config::new`.
    #[tactic(auto, unfolding(crate::specs::Config::derived_of))]
    pub fn derived(self) -> Config
        ensures { result ≡ derived_of self }
    {
        let sample_period = 1.0 / self.sample_rate;
        Config {
            sample_period,
            gain: self.gain,
            startup_gain_rate: ((INITIAL_STARTUP_GAIN - self.gain) / STARTUP_PERIOD)
                * sample_period,
            overrange_enabled: self.gyroscope_range > 0.0,
            overrange_threshold: OVERRANGE_FACTOR * self.gyroscope_range,
            acceleration_rejection: self.limit(self.acceleration_rejection),
            magnetic_rejection: self.limit(self.magnetic_rejection),
            rejection_timeout: number::to_i32(self.sample_rate * self.rejection_timeout),
        }
    }

    // Why a start with these settings is refused.
    #[tactic(auto, unfolding(answer::specs::Refusals::refusal_of))]
    pub fn check(self) -> Result<(), Refusal>
        ensures { number_in result ≡ refusal_of (settings_checks self) }
    {
        if !self.is_known() {
            return Err(Refusal::Unknown);
        }
        if !self.is_finite() {
            return Err(Refusal::NotFinite);
        }
        if !self.is_sound() {
            return Err(Refusal::OutOfRange);
        }
        if !self.derived().is_finite() {
            return Err(Refusal::Overflow);
        }
        Ok(())
    }

    // The number of that refusal, 0 of a start that is accepted.
    pub fn refusal(self) -> u8
        ensures { result ≡ refusal_of (settings_checks self) }
    {
        answer::number_in(self.check())
    }
}

impl Config {
    #[tactic(auto, unfolding(crate::specs::Config::finite_config))]
    pub fn is_finite(self) -> bool
        ensures { result ≡ finite_config self }
    {
        number::is_finite(self.sample_period)
            & number::is_finite(self.gain)
            & number::is_finite(self.startup_gain_rate)
            & number::is_finite(self.overrange_threshold)
            & number::is_finite(self.acceleration_rejection)
            & number::is_finite(self.magnetic_rejection)
    }

    // The axes on which the gyroscope is over its range.
    #[tactic(auto, unfolding(crate::specs::Axes::over_of))]
    pub fn overrange(self, gyroscope: Vector) -> Axes
        ensures { result ≡ over_of self gyroscope }
    {
        let on = self.overrange_enabled;
        let threshold = self.overrange_threshold;
        Axes {
            x: on & number::is_larger(gyroscope.x, threshold),
            y: on & number::is_larger(gyroscope.y, threshold),
            z: on & number::is_larger(gyroscope.z, threshold),
        }
    }
}
