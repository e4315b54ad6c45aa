/// The most frames of a stage.
pub const MAX_FRAMES: usize = 128;

/// A frame's times, in ticks.
#[derive(Clone, Copy, Debug, PartialEq, Eq)]
pub struct Timed {
    /// The least time from one arrival to the next, from 1 to 10^11.
    pub period: u64,
    /// The most by which an instance is queued after it arrived, at most 10^11.
    pub jitter: u64,
    /// The most that one sending takes, from 1 to 10^8.
    pub ticks: u64,
    /// The time from an arrival by which its sending is to have ended, from 1 to 10^11.
    pub deadline: u64,
}

impl Timed {
    ghost use Rattle.std.specs.Prelude.{◌≡◌, ◌≤◌, ◌^◌};
    ghost use Rattle.busy_period.specs.Timed.{IsInRange};
    ghost use Rattle.busy_period.specs.Demand.{instances_of};

    /// The most instances of the frame that are queued within `time` ticks: those that arrive within the time
    /// and the jitter before it. `time` is at most 2^46.
    pub fn instances(self, time: u64) -> u64
        requires range { IsInRange self }
        requires time { time ≤ 2 ^ 46 }
        ensures { result ≡ instances_of self time }
    {
        let window = time + self.jitter;
        if window <= self.period {
            return window.min(1);
        }
        window.div_ceil(self.period)
    }
}
