// The states as a line shows them, in the Rust's order of their fields: of the estimator 10 words, of the filter 37.
use super::words::{Worded, Words};
use ahrs::read::{Flags, IgnoredCounts};
use ahrs::{Ahrs, Axes, Config, Rejection, Settings};
use bias::Bias;
use offset::Offset;

impl Worded for Bias {
    fn behind(self, words: Words) -> Words {
        words
            .with(self.settings)
            .with(self.filter_coefficient)
            .with(self.timeout)
            .with(self.timer)
            .with(self.offset)
    }
}

// The mounting and the offset.
impl Worded for Offset {
    fn behind(self, words: Words) -> Words {
        words.with(self.mounting).with(self.vector)
    }
}

// A limit is shown as the number that was given, squared or in degrees.
impl Worded for Settings {
    fn behind(self, words: Words) -> Words {
        words
            .with(self.sample_rate)
            .with(self.convention)
            .with(self.gain)
            .with(self.gyroscope_range)
            .with(self.acceleration_rejection.given())
            .with(self.magnetic_rejection.given())
            .with(self.rejection_timeout)
    }
}

impl Worded for Config {
    fn behind(self, words: Words) -> Words {
        words
            .with(self.sample_period)
            .with(self.gain)
            .with(self.startup_gain_rate)
            .with(self.overrange_enabled)
            .with(self.overrange_threshold)
            .with(self.acceleration_rejection)
            .with(self.magnetic_rejection)
            .with(self.rejection_timeout)
    }
}

impl Worded for Rejection {
    fn behind(self, words: Words) -> Words {
        words
            .with(self.half_residual)
            .with(self.recovery_trigger)
            .with(self.recovery_threshold)
            .with(self.ignored)
    }
}

// Of the axes over the range only whether there is one, as in the Rust.
impl Worded for Ahrs {
    fn behind(self, words: Words) -> Words {
        words
            .with(self.settings)
            .with(self.config)
            .with(self.quaternion)
            .with(self.accelerometer)
            .with(self.startup)
            .with(self.startup_gain)
            .with(self.overrange_recovery.any())
            .with(self.acceleration)
            .with(self.magnetic)
    }
}

impl Worded for Flags {
    fn behind(self, words: Words) -> Words {
        words
            .with(self.startup)
            .with(self.overrange_recovery.any())
            .with(self.acceleration_recovery)
            .with(self.magnetic_recovery)
    }
}

// One word: 1 for x, 2 for y and 4 for z, added up.
impl Worded for Axes {
    fn behind(self, words: Words) -> Words {
        let (x, y, z) = (u32::from(self.x), u32::from(self.y), u32::from(self.z));
        words.with(x + 2 * y + 4 * z)
    }
}

// The accelerometer's and the magnetometer's.
impl Worded for IgnoredCounts {
    fn behind(self, words: Words) -> Words {
        words.with(self.accelerometer).with(self.magnetometer)
    }
}
