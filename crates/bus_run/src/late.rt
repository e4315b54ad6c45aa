//! The first release that is late.
ghost use Rattle.std.specs.Prelude.{◌≡◌, ℕ, ◌<◌, ◌≤◌, List, IfSome, IfNone, MatchOption, length};
ghost use Rattle.pack_model.specs.declared.network.Network.{Network};
ghost use Rattle.pack_model.specs.Network.{NetworkStands};
ghost use Rattle.response_test.specs.Frame.{IsShown};
ghost use Rattle.bus_run.specs.Frames.{AreBusFrames, HaveWorstTicks, bus_frame_at, times_of};
ghost use Rattle.bus_run.specs.Run.{release_at, send_at, end_at};
ghost use Rattle.bus_run.specs.Rules.{RunStands};
ghost use Rattle.bus_run.specs.Late.{EndsBy, IsLate, IsByNumber};
ghost use Rattle.bus_run.specs.Limits.{ReleaseLimited};

use crate::run::{BusFrame, Run};
use busy_period::MAX_FRAMES;

/// The first send from the number `from` on that carries a release and ends by a time in ticks, or None where
/// none does.
fn ended_by(run: &Run, number: usize, time: u64, from: usize) -> Option<usize>
    ensures some { IfSome result (EndsBy run.now number time) }
    ensures none { IfNone result ((send : ℕ) → from ≤ send → EndsBy run.now number time send → ⊥) }
{
    for place in from..run.sent() {
        let send = run.send(place);
        if send.release as usize == number && send.start + send.ticks <= time {
            return Some(place);
        }
    }
    None
}

/// Where the sends of a release's frame are to be looked for next, or None where the release is late. They
/// are looked for from `from` on, where they are in a run that stands, and only then from the first one on.
fn in_time(frames: &[BusFrame], run: &Run, number: usize, from: usize) -> Option<usize>
    requires frames { AreBusFrames frames.now }
    requires inside { number < length run.now.releases }
    requires there { (release_at run.now number).frame < length frames.now }
    ensures { MatchOption result (IsLate frames.now run.now number)
        (λ _. IsLate frames.now run.now number → ⊥) }
{
    let release = run.release(number);
    let due = release.arrival + frames[release.frame as usize].timed.deadline;
    if due > run.until() {
        return Some(from);
    }
    match ended_by(run, number, due, from) {
        Some(place) => Some(place),
        None => ended_by(run, number, due, 0),
    }
}

/// The first release with a deadline in the run, at or before `until`, that no send carries to its end by
/// then; None exactly where there is none. In a run that stands no release of a frame that is shown is late.
/// It takes no memory.
pub fn first_late(frames: &[BusFrame], run: &Run) -> Option<u32>
    requires frames { AreBusFrames frames.now }
    requires there { (release : ℕ) → release < length run.now.releases
        → (release_at run.now release).frame < length frames.now }
    ensures first { MatchOption result ((release : ℕ) → IsLate frames.now run.now release → ⊥)
        (λ late. IsLate frames.now run.now late
        × ((earlier : ℕ) → earlier < late → IsLate frames.now run.now earlier → ⊥)) }
    ensures shown { (network : Network) (order : List ℕ) (place busy : ℕ) (starts : List ℕ)
        → NetworkStands network → HaveWorstTicks network frames.now → RunStands network frames.now run.now
        → IsByNumber (length frames.now) order place
        → IsShown (times_of frames.now) order place network.nominal_ticks busy starts
        → IfSome result (λ late. (release_at run.now late).frame ≡ place → ⊥) }
{
    let mut from = [0; MAX_FRAMES];
    for number in 0..run.released() {
        let frame = run.release(number).frame as usize;
        match in_time(frames, run, number, from[frame]) {
            Some(next) => from[frame] = next,
            None => return Some(number as u32),
        }
    }
    None
}
