// The words that a line says, in order. There are at most 64; what comes after them is left out.
ghost use Rattle.std.specs.Prelude.{◌≤◌};

use bias::BiasSettings;
use math::{Matrix, Quaternion};
use vector::Vector;

pub(crate) const MOST: usize = 64;

#[derive(Clone, Copy, Debug)]
pub(crate) struct Words {
    all: [u32; 64],
    n: usize,
    ghost room: { n ≤ 64 },
}

impl Words {
    pub(crate) fn none() -> Words {
        Words { all: [0; 64], n: 0 }
    }

    // The words with more behind them.
    pub(crate) fn with<T: Worded>(self, value: T) -> Words {
        value.behind(self)
    }

    fn word(self, word: u32) -> Words {
        let n = self.n;
        if n >= MOST {
            return self;
        }
        let mut all = self.all;
        all[n] = word;
        Words { all, n: n + 1 }
    }

    pub(crate) fn as_slice(&self) -> &[u32] {
        &self.all[..self.n]
    }
}

// What is said in words.
pub(crate) trait Worded {
    fn behind(self, words: Words) -> Words;
}

impl Worded for u32 {
    fn behind(self, words: Words) -> Words {
        words.word(self)
    }
}

impl Worded for u8 {
    fn behind(self, words: Words) -> Words {
        words.word(u32::from(self))
    }
}

impl Worded for bool {
    fn behind(self, words: Words) -> Words {
        words.word(u32::from(self))
    }
}

// In two's complement.
impl Worded for i32 {
    fn behind(self, words: Words) -> Words {
        words.word(u32::from_le_bytes(self.to_le_bytes()))
    }
}

impl Worded for f32 {
    fn behind(self, words: Words) -> Words {
        words.word(wire::bits_of(self))
    }
}

impl Worded for Vector {
    fn behind(self, words: Words) -> Words {
        words.with(self.x).with(self.y).with(self.z)
    }
}

impl Worded for Quaternion {
    fn behind(self, words: Words) -> Words {
        words.with(self.w).with(self.x).with(self.y).with(self.z)
    }
}

// By rows.
impl Worded for Matrix {
    fn behind(self, words: Words) -> Words {
        words
            .with(Vector::new(self.xx, self.xy, self.xz))
            .with(Vector::new(self.yx, self.yy, self.yz))
            .with(Vector::new(self.zx, self.zy, self.zz))
    }
}

impl Worded for BiasSettings {
    fn behind(self, words: Words) -> Words {
        words
            .with(self.sample_rate)
            .with(self.stationary_threshold)
            .with(self.stationary_period)
            .with(self.cutoff_frequency)
    }
}

// Words that are together already.
impl Worded for Words {
    fn behind(self, words: Words) -> Words {
        let mut words = words;
        for word in self.as_slice() {
            words = words.word(*word);
        }
        words
    }
}
