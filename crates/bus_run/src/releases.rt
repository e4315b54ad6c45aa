//! The rules of the releases, with a table of the last release of each frame.
ghost use Rattle.std.specs.Prelude.{◌≡◌, ℕ, ◌+◌, ◌-◌, ◌<◌, ◌≤◌, ◌↔◌, IsTrue, OnOk, IfErr, length};
ghost use Rattle.busy_period.specs.Timed.{IsInRange};
ghost use Rattle.bus_run.specs.Frames.{AreBusFrames, bus_frame_at};
ghost use Rattle.bus_run.specs.Run.{release_at};
ghost use Rattle.bus_run.specs.Limits.{ReleaseLimited};
ghost use Rattle.bus_run.specs.Rules.{FrameThere, IsQueued, IsPeriodic, IsInOrder};
ghost use Rattle.bus_run.specs.Rules.{ReleaseStands, ReleaseBreaks, ReleasesStand, FirstRelease};
ghost use Rattle.bus_run.specs.Tables.{HasLast, HaveLast};

use crate::run::{BusFrame, Release, Run};
use crate::stands::Broken;
use busy_period::MAX_FRAMES;

/// Whether a release is queued within its frame's jitter.
fn is_queued(frame: &BusFrame, release: &Release) -> bool
    requires range { IsInRange frame.now.timed }
    requires limited { ReleaseLimited release.now }
    ensures { IsTrue result ↔ IsQueued frame.now.timed release.now }
{
    release.arrival <= release.queued && release.queued <= release.arrival + frame.timed.jitter
}

/// Whether a release arrives at least a period after each earlier one of its frame. `last` is one more than
/// the number of the last of these, or 0.
fn is_periodic(frame: &BusFrame, run: &Run, number: usize, last: usize) -> bool
    requires inside { number < length run.now.releases }
    requires range { IsInRange frame.now.timed }
    requires last { HasLast run.now number (release_at run.now number).frame last }
    ensures some { IsTrue result → 0 < last
        → (release_at run.now (last - 1)).arrival + frame.now.timed.period
        ≤ (release_at run.now number).arrival }
    ensures none { ((0 < last)
        → (release_at run.now (last - 1)).arrival + frame.now.timed.period
        ≤ (release_at run.now number).arrival)
        → IsTrue result }
{
    last == 0 || run.release(last - 1).arrival + frame.timed.period <= run.release(number).arrival
}

/// Whether a release is not queued before an earlier one of its frame.
fn is_in_order(run: &Run, number: usize, last: usize) -> bool
    requires inside { number < length run.now.releases }
    requires last { HasLast run.now number (release_at run.now number).frame last }
    ensures some { IsTrue result → 0 < last
        → (release_at run.now (last - 1)).queued ≤ (release_at run.now number).queued }
    ensures none { ((0 < last) → (release_at run.now (last - 1)).queued ≤ (release_at run.now number).queued)
        → IsTrue result }
{
    last == 0 || run.release(last - 1).queued <= run.release(number).queued
}

/// Whether a release stands, or the first rule that it breaks, from 1 to 4. `last` has for each frame one
/// more than the number of its last release before.
fn release_stands(
    frames: &[BusFrame],
    run: &Run,
    number: usize,
    last: &[usize; MAX_FRAMES],
) -> Result<(), u8>
    requires frames { AreBusFrames frames.now }
    requires inside { number < length run.now.releases }
    requires earlier { (earlier : ℕ) → earlier < number → ReleaseStands frames.now run.now earlier }
    requires last { HaveLast run.now number last.now }
    ensures stands { OnOk result (ReleaseStands frames.now run.now number) }
    ensures breaks { IfErr result (λ rule. ReleaseBreaks frames.now run.now number rule) }
{
    let release = run.release(number);
    let place = release.frame as usize;
    if place >= frames.len() {
        return Err(1);
    }
    let frame = frames[place];
    if !is_queued(&frame, &release) {
        return Err(2);
    }
    if !is_periodic(&frame, run, number, last[place]) {
        return Err(3);
    }
    if !is_in_order(run, number, last[place]) {
        return Err(4);
    }
    Ok(())
}

/// Whether all releases stand, or the first that does not, with the first rule that it breaks.
pub(crate) fn releases_stand(frames: &[BusFrame], run: &Run) -> Result<(), Broken>
    requires frames { AreBusFrames frames.now }
    ensures stands { OnOk result (ReleasesStand frames.now run.now) }
    ensures breaks { IfErr result (λ broken. FirstRelease frames.now run.now broken.rule broken.place) }
{
    let mut last = [0; MAX_FRAMES];
    for number in 0..run.released() {
        if let Err(rule) = release_stands(frames, run, number, &last) {
            return Err(Broken {
                rule,
                place: number,
            });
        }
        last[run.release(number).frame as usize] = number + 1;
    }
    Ok(())
}
