// A start, a restart, and the calls that set something. What changes is put into a copy of the state: with the other fields by `..self` the
// compiler copies each of them by itself, a mark and the bytes beside it apart, and who reads the state then waits for them.
ghost use Rattle.std.specs.Prelude.{◌≡◌};
ghost use Rattle.answer.specs.Refusals.{refusal_of};
ghost use Rattle.answer.specs.Rows.{number_in};
ghost use Rattle.ahrs.specs.Filter.{fresh_of, with_threshold, with_settings};
ghost use Rattle.ahrs.specs.Calls.{Starts, Restarts, SkipsStartup};
ghost use Rattle.ahrs.specs.Calls.{change_checks, SetsSettings, period_checks, SetsSamplePeriod, settable, quaternion_checks, SetsQuaternion};

use super::Ahrs;
use answer::{Change, Refusal};
use math::Quaternion;
use settings::config::INITIAL_STARTUP_GAIN;
use settings::{Axes, Config, Settings};
use step::Rejection;
use vector::{Components, Vector};

// The squared norm of an orientation that may be set, both ends included.
const LEAST_NORM_SQUARED: f32 = 0.25;

const MOST_NORM_SQUARED: f32 = 4.0;

// A settings change sets the threshold to the new timeout, and keeps the trigger.
#[tactic(auto, unfolding(crate::specs::Filter::with_threshold))]
fn with_threshold(rejection: Rejection, timeout: i32) -> Rejection
    ensures { result ≡ with_threshold rejection timeout }
{
    let mut next = rejection;
    next.recovery_threshold = timeout;
    next
}

// A quaternion of zero, of which every update is refused, is never set.
#[tactic(auto, unfolding(crate::specs::Calls::settable))]
fn is_settable(quaternion: Quaternion) -> bool
    ensures { result ≡ settable quaternion }
{
    let norm_squared = quaternion.norm_squared();
    (norm_squared >= LEAST_NORM_SQUARED) & (norm_squared <= MOST_NORM_SQUARED)
}

impl Ahrs {
    // The state at a start or a restart.
    #[tactic(auto, unfolding(crate::specs::Filter::fresh_of))]
    fn fresh(settings: Settings, config: Config) -> Ahrs
        ensures { result ≡ fresh_of settings config }
    {
        let rejection = Rejection::reset(config.rejection_timeout);
        Ahrs {
            settings,
            config,
            quaternion: Quaternion::IDENTITY,
            accelerometer: Vector::ZERO,
            startup: true,
            startup_gain: INITIAL_STARTUP_GAIN,
            overrange_recovery: Axes::NONE,
            acceleration: rejection,
            magnetic: rejection,
        }
    }

    pub fn with_settings(settings: Settings) -> Result<Ahrs, Refusal>
        ensures { Starts settings result }
    {
        settings.check()?;
        Ok(Ahrs::fresh(settings, settings.derived()))
    }

    // As fresh, but with the settings and what they derive kept.
    pub fn restart(self) -> Change<Ahrs>
        ensures { Restarts self result }
    {
        if let Err(refusal) = self.check() {
            return Change::refused(self, refusal);
        }
        Change::made(Ahrs::fresh(self.settings, self.config))
    }

    #[tactic(auto, unfolding(crate::specs::Filter::skipped_startup))]
    pub fn skip_startup(self) -> Change<Ahrs>
        ensures { SkipsStartup self result }
    {
        if let Err(refusal) = self.check() {
            return Change::refused(self, refusal);
        }
        let mut state = self;
        state.startup = false;
        state.overrange_recovery = Axes::NONE;
        Change::made(state)
    }

    // Other settings and what they derive: both thresholds become the new timeout, and the triggers stay.
    #[tactic(auto, unfolding(crate::specs::Filter::with_settings))]
    fn apply_settings(self, settings: Settings, config: Config) -> Ahrs
        ensures { result ≡ with_settings self settings config }
    {
        let mut next = self;
        next.settings = settings;
        next.config = config;
        next.acceleration = with_threshold(self.acceleration, config.rejection_timeout);
        next.magnetic = with_threshold(self.magnetic, config.rejection_timeout);
        next
    }

    // Why a settings change is refused: 4 and 5 are of both, 6 and 7 of the new settings alone.
    #[tactic(auto, unfolding(answer::specs::Refusals::refusal_of))]
    fn check_settings(self, settings: Settings) -> Result<(), Refusal>
        ensures { number_in result ≡ refusal_of (change_checks self settings) }
    {
        if !(self.settings.is_known() & settings.is_known()) {
            return Err(Refusal::Unknown);
        }
        if !(self.is_finite() & settings.is_finite()) {
            return Err(Refusal::NotFinite);
        }
        settings.check()
    }

    pub fn set_settings(self, settings: Settings) -> Change<Ahrs>
        ensures { SetsSettings self settings result }
    {
        if let Err(refusal) = self.check_settings(settings) {
            return Change::refused(self, refusal);
        }
        Change::made(self.apply_settings(settings, settings.derived()))
    }

    #[tactic(auto, unfolding(answer::specs::Refusals::refusal_of))]
    fn check_sample_period(self, sample_period: f32) -> Result<(), Refusal>
        ensures { number_in result ≡ refusal_of (period_checks self sample_period) }
    {
        if !self.settings.is_known() {
            return Err(Refusal::Unknown);
        }
        if !(self.is_finite() & number::is_finite(sample_period)) {
            return Err(Refusal::NotFinite);
        }
        if !(sample_period > 0.0) {
            return Err(Refusal::OutOfRange);
        }
        Ok(())
    }

    // The sample period alone: the rate at which the startup gain falls is left.
    #[tactic(auto, unfolding(crate::specs::Filter::with_sample_period))]
    pub fn set_sample_period(self, sample_period: f32) -> Change<Ahrs>
        ensures { SetsSamplePeriod self sample_period result }
    {
        if let Err(refusal) = self.check_sample_period(sample_period) {
            return Change::refused(self, refusal);
        }
        let mut state = self;
        state.config.sample_period = sample_period;
        Change::made(state)
    }

    #[tactic(auto, unfolding(answer::specs::Refusals::refusal_of))]
    fn check_quaternion(self, quaternion: Quaternion) -> Result<(), Refusal>
        ensures { number_in result ≡ refusal_of (quaternion_checks self quaternion) }
    {
        if !self.settings.is_known() {
            return Err(Refusal::Unknown);
        }
        if !(self.is_finite() & quaternion.is_finite()) {
            return Err(Refusal::NotFinite);
        }
        if !is_settable(quaternion) {
            return Err(Refusal::Norm);
        }
        Ok(())
    }

    #[tactic(auto, unfolding(crate::specs::Filter::with_quaternion))]
    pub fn set_quaternion(self, quaternion: Quaternion) -> Change<Ahrs>
        ensures { SetsQuaternion self quaternion result }
    {
        if let Err(refusal) = self.check_quaternion(quaternion) {
            return Change::refused(self, refusal);
        }
        let mut state = self;
        state.quaternion = quaternion;
        Change::made(state)
    }
}
