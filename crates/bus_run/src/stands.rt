//! Whether a run stands, or the first rule that it breaks.
ghost use Rattle.std.specs.Prelude.{◌≡◌, ℕ, ◌<◌, ◌≤◌, ◌↔◌, IsTrue, OnOk, IfErr, length, max};
ghost use Rattle.pack_model.specs.Network.{NetworkStands};
ghost use Rattle.bus_run.specs.Frames.{AreBusFrames};
ghost use Rattle.bus_run.specs.Run.{release_at, end_before};
ghost use Rattle.bus_run.specs.Rules.{IsInOrder, ReleasesStand, SendStands, NoFurther, RunStands, RunBreaks};
ghost use Rattle.bus_run.specs.Tables.{IsFirstFrom, HaveNext, IsLeastBelow, NoneIn, FramesBelow};

use crate::releases::releases_stand;
use crate::run::{BusFrame, Run};
use crate::sends::send_stands;
use crate::unsent::{first_from, first_of_each, least_queued};
use busy_period::MAX_FRAMES;
use pack_model::Network;

/// The first rule that a run breaks.
#[derive(Clone, Copy, Debug, PartialEq, Eq)]
pub struct Broken {
    /// The rule, from 1 to 11 as [`run_stands`] lists them.
    pub rule: u8,
    /// The number of the release or send that breaks it; at rule 11 the number of sends.
    pub place: usize,
}

/// Whether no further send starts before the run ends.
fn no_further(run: &Run, next: &[usize; MAX_FRAMES], end: u64) -> bool
    requires below { FramesBelow run.now }
    requires order { (release : ℕ) → release < length run.now.releases → IsInOrder run.now release }
    requires next { HaveNext run.now (length run.now.sends) next.now }
    requires end { end ≡ end_before run.now (length run.now.sends) }
    ensures { IsTrue result ↔ NoFurther run.now }
{
    match least_queued(run, next) {
        Some(least) => run.until() <= end.max(least),
        None => true,
    }
}

/// Whether a run stands whose releases do, or the first of its sends that does not, with the first rule that
/// it breaks.
fn sends_stand(network: &Network, frames: &[BusFrame], run: &Run) -> Result<(), Broken>
    requires network { NetworkStands network.now }
    requires frames { AreBusFrames frames.now }
    requires releases { ReleasesStand frames.now run.now }
    ensures stands { OnOk result (RunStands network.now frames.now run.now) }
    ensures breaks { IfErr result
        (λ broken. RunBreaks network.now frames.now run.now broken.rule broken.place) }
{
    let mut next = first_of_each(run);
    let mut end = 0;
    for number in 0..run.sent() {
        if let Err(rule) = send_stands(network, frames, run, number, &next, end) {
            return Err(Broken {
                rule,
                place: number,
            });
        }
        let send = run.send(number);
        let release = send.release as usize;
        let frame = run.release(release).frame;
        next[frame as usize] = first_from(run, frame, release + 1);
        end = send.start + send.ticks;
    }
    if no_further(run, &next, end) {
        Ok(())
    } else {
        Err(Broken {
            rule: 11,
            place: run.sent(),
        })
    }
}

/// Whether a run stands over the frames of a bus, or the first rule that it breaks: the rules of the releases
/// in their order, then those of the sends in theirs, then the last one, whose place is the number of sends.
/// It takes no memory.
///
/// | Rule | For | Says |
/// |---|---|---|
/// | 1 | each release | its frame is there |
/// | 2 | each release | it is queued when it arrives, or at most the frame's jitter later |
/// | 3 | each release | it arrives at least a period after the frame's release before it |
/// | 4 | each release | it is not queued before the frame's release before it |
/// | 5 | each send | its release is there, and is the first of its frame that no earlier send carries |
/// | 6 | each send | its payload has the frame's size |
/// | 7 | each send | it lasts as long as its bits do when stuffed, or at most two nominal bits less |
/// | 8 | each send | it starts as soon as the send before has ended and a release is queued, before `until` |
/// | 9 | each send | its release was queued less than a nominal bit after the start |
/// | 10 | each send | no unsent release of a higher frame is queued by the start |
/// | 11 | the end | no further send starts before `until` |
pub fn run_stands(network: &Network, frames: &[BusFrame], run: &Run) -> Result<(), Broken>
    requires network { NetworkStands network.now }
    requires frames { AreBusFrames frames.now }
    ensures stands { OnOk result (RunStands network.now frames.now run.now) }
    ensures breaks { IfErr result
        (λ broken. RunBreaks network.now frames.now run.now broken.rule broken.place) }
{
    if let Err(broken) = releases_stand(frames, run) {
        return Err(broken);
    }
    sends_stand(network, frames, run)
}
