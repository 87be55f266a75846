// The two counts of one sensor's rejection, and what a reading does to them: the whole-number part of the Rust's `Rejection`.
#![tactic(auto)]

ghost use Rattle.std.specs.Prelude.{◌≡◌};
ghost use Rattle.rejection.specs.Counts.{reset_of, moved_of, updated_of, recovery_of};

#[derive(Clone, Copy, Debug, PartialEq, Eq)]
pub struct Counts {
    pub trigger: i32,
    pub threshold: i32,
}

// The counts after a reading, and whether its residual is used.
#[derive(Clone, Copy, Debug, PartialEq, Eq)]
pub struct Updated {
    pub counts: Counts,
    pub used: bool,
}

impl Counts {
    pub fn reset(timeout: i32) -> Counts
        ensures { result ≡ reset_of timeout }
    {
        Counts {
            trigger: 0,
            threshold: timeout,
        }
    }

    // Where a reading moves the trigger, before it is clamped.
    #[tactic(auto, unfolding(crate::specs::Counts::moved_of))]
    fn moved(self, over: bool) -> i32
        ensures { result ≡ moved_of over self.trigger }
    {
        if over {
            return number::saturating_add(self.trigger, 1);
        }
        number::saturating_sub(self.trigger, 9)
    }

    // The counts' part of the Rust's `Rejection::update`: the trigger moves, is compared, and only then is clamped.
    // A reading is over the limit and not in startup, or it is good.
    #[tactic(auto, unfolding(crate::specs::Counts::updated_of))]
    pub fn update(self, over: bool, timeout: i32) -> Updated
        ensures { result ≡ updated_of timeout self over }
    {
        let moved = self.moved(over);
        let trigger = number::clamp(moved, 0, timeout);
        if moved > self.threshold {
            return Updated {
                counts: Counts {
                    trigger,
                    threshold: 0,
                },
                used: true,
            };
        }
        Updated {
            counts: Counts {
                trigger,
                threshold: timeout,
            },
            used: !over,
        }
    }

    // Whether the recovery flag is up.
    pub fn recovery(self) -> bool
        ensures { result ≡ recovery_of self }
    {
        self.trigger > self.threshold
    }
}
