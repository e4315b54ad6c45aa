//! Times of signals together.
ghost use Rattle.std.specs.Prelude.{◌≡◌, ◌<◌, length, All, slice_get};
ghost use Rattle.std.specs.List.{filter_map};
ghost use Rattle.class_frame.specs.Sums.{times_of, with_signal};

use pack_model::Signal;

/// Times of signals together, in microseconds.
#[derive(Clone, Copy, Debug, PartialEq, Eq)]
pub struct Times {
    /// The least period.
    pub period_us: u32,
    /// The least deadline.
    pub deadline_us: u32,
    /// The greatest jitter.
    pub jitter_us: u32,
}

/// The times of no signals: each signal's period and deadline are at most these, and its jitter is at least this.
const NO_TIMES: Times = Times {
    period_us: u32::MAX,
    deadline_us: u32::MAX,
    jitter_us: 0,
};

impl Times {
    /// The times with those of one more signal.
    fn with_signal(self, signal: &Signal) -> Times
        ensures { result ≡ with_signal self signal.now }
    {
        Times {
            period_us: self.period_us.min(signal.period_us),
            deadline_us: self.deadline_us.min(signal.deadline_us),
            jitter_us: self.jitter_us.max(signal.jitter_us),
        }
    }

    /// The times of the signals at these places.
    pub fn of(signals: &[Signal], places: &[u32]) -> Times
        requires { All (λ place. place < length signals.now) places.now }
        ensures { result ≡ times_of (filter_map (slice_get signals.now) places.now) }
    {
        let mut times = NO_TIMES;
        for place in places {
            times = times.with_signal(&signals[*place as usize]);
        }
        times
    }
}
