//! The first unsent release of each frame, in a table by frames whose entries only move forward.
//!
//! An entry that is the number of releases stands for none.
ghost use Rattle.std.specs.Prelude.{◌≡◌, ℕ, ◌<◌, ◌≤◌, ◌↔◌, IsTrue, MatchOption, length, slice_index, min};
ghost use Rattle.bus_run.specs.Run.{release_at};
ghost use Rattle.bus_run.specs.Limits.{ReleaseLimited};
ghost use Rattle.bus_run.specs.Tables.{IsFirstFrom, HaveNext, IsLeastBelow, NoneIn, QueuedAfter};

use crate::run::Run;
use busy_period::MAX_FRAMES;

/// The first release of a frame from the number `from` on, or how many releases there are where there is
/// none.
pub(crate) fn first_from(run: &Run, frame: u32, from: usize) -> usize
    requires { from ≤ length run.now.releases }
    ensures { IsFirstFrom run.now frame from result }
{
    for number in from..run.released() {
        if run.release(number).frame == frame {
            return number;
        }
    }
    run.released()
}

/// The first release of each frame.
pub(crate) fn first_of_each(run: &Run) -> [usize; MAX_FRAMES]
    ensures { HaveNext run.now 0 result }
{
    let mut next = [0; MAX_FRAMES];
    for frame in 0..MAX_FRAMES {
        next[frame] = first_from(run, frame as u32, 0);
    }
    next
}

/// The lesser of a time and another, if there is one.
fn lesser(least: Option<u64>, queued: u64) -> u64
    ensures { MatchOption least (result ≡ queued) (λ before. result ≡ min before queued) }
{
    match least {
        Some(before) => before.min(queued),
        None => queued,
    }
}

/// The least time in ticks at which a release in a table is queued, or None where the table has none.
pub(crate) fn least_queued(run: &Run, next: &[usize; MAX_FRAMES]) -> Option<u64>
    ensures { MatchOption result (NoneIn run.now next.now MAX_FRAMES)
        (λ least. IsLeastBelow run.now next.now MAX_FRAMES least) }
{
    let mut least = None;
    for frame in 0..MAX_FRAMES {
        if next[frame] < run.released() {
            least = Some(lesser(least, run.release(next[frame]).queued));
        }
    }
    least
}

/// Whether all releases in a table, of the frames below `count`, are queued after a time in ticks.
pub(crate) fn queued_after(run: &Run, next: &[usize; MAX_FRAMES], count: usize, time: u64) -> bool
    requires { count ≤ MAX_FRAMES }
    ensures { IsTrue result ↔ QueuedAfter run.now next.now count time }
{
    for frame in 0..count {
        if next[frame] < run.released() && run.release(next[frame]).queued <= time {
            return false;
        }
    }
    true
}
