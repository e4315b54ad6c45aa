//! The load of frames.
ghost use Rattle.std.specs.Prelude.{◌≡◌, ◌≤◌, ◌*◌, ◌/◌, length, All, sum_by};
ghost use Rattle.busy_period.specs.Timed.{IsInRange};

use busy_period::Timed;

/// The ticks that frames take in a common period of theirs, where each is sent once in its period. There are
/// at most 128 frames, and the common period is at most 10^15 ticks.
pub fn load_of_frames(frames: &[Timed], hyper: u64) -> u128
    requires few { length frames.now ≤ 128 }
    requires in_range { All IsInRange frames.now }
    requires hyper { hyper ≤ 1000000000000000 }
    ensures { result ≡ sum_by (λ frame. frame.ticks * (hyper / frame.period)) frames.now }
{
    let mut load = 0;
    for frame in frames {
        load += u128::from(frame.ticks) * u128::from(hyper / frame.period);
    }
    load
}
