//! The run that given releases and picks lead to.
ghost use Rattle.std.specs.Prelude.{◌≡◌, ℕ, ◌+◌, ◌<◌, ◌≤◌, IfOk, OnOk, MatchOption, List, [], length, slice_index};
ghost use Rattle.fd_length.specs.Size.{IsSize};
ghost use Rattle.pack_model.specs.Network.{NetworkStands};
ghost use Rattle.bus_run.specs.Frames.{AreBusFrames, HaveWorstTicks};
ghost use Rattle.bus_run.specs.Run.{Course, release_at, send_at};
ghost use Rattle.bus_run.specs.Rules.{ReleasesStand, RunStands};
ghost use Rattle.bus_run.specs.Limits.{IsLimited};
ghost use Rattle.bus_run.specs.Tables.{HaveNext, QueuedAfter};
ghost use Rattle.bus_run.specs.Played.{pick_at, contends_by, IsPicked, Follows};
ghost use Rattle.bus_run.specs.Played.{Contends, StartsAt, NoneStarts, IsPlayed, left_of};

use crate::run::{BusFrame, Release, Run, Sent, run_of};
use crate::unsent::{first_from, first_of_each, least_queued};
use busy_period::MAX_FRAMES;
use frame_ticks::{IDENTIFIERS, real_ticks};
use pack_model::{Memory, Network, Payload};
use std::alloc::Global;

/// How one send of a run that is played is to be.
#[derive(Clone, Copy, Debug, PartialEq, Eq)]
pub struct Pick {
    /// Whether each frame that is queued within the nominal bit after the start contends.
    pub join: bool,
    /// Whether the sender is error passive.
    pub esi: bool,
    /// Each byte of the payload.
    pub fill: u8,
    /// By how many ticks it is shorter than its stuffed bits; more than two nominal bits count as two.
    pub shorter: u32,
}

/// The pick of a number.
fn picked(picks: &[Pick], number: usize) -> Pick
    ensures { result ≡ pick_at picks.now number }
{
    if number < picks.len() {
        picks[number]
    } else {
        Pick {
            join: false,
            esi: false,
            fill: 0,
            shorter: 0,
        }
    }
}

/// The time by which what contends at a start is queued.
fn contends_until(network: &Network, pick: &Pick, start: u64) -> u64
    requires network { NetworkStands network.now }
    requires limit { start ≤ 1000000000000000000 }
    ensures { result ≡ contends_by network.now pick.now start }
{
    if pick.join {
        start + u64::from(network.nominal_ticks) - 1
    } else {
        start
    }
}

/// The highest frame whose first unsent release is queued by a time, or None where there is none.
fn contender(run: &Run, next: &[usize; MAX_FRAMES], time: u64) -> Option<usize>
    ensures { MatchOption result (QueuedAfter run.now next.now MAX_FRAMES time)
        (λ frame. Contends run.now next.now time frame) }
{
    for frame in 0..MAX_FRAMES {
        if next[frame] < run.released() && run.release(next[frame]).queued <= time {
            return Some(frame);
        }
    }
    None
}

/// When a further send starts, or None where none starts before the run ends.
fn start_of(run: &Run, next: &[usize; MAX_FRAMES], end: u64) -> Option<u64>
    ensures { MatchOption result (NoneStarts run.now next.now end)
        (λ start. StartsAt run.now next.now end start) }
{
    let least = least_queued(run, next)?;
    let start = end.max(least);
    if start < run.until() {
        Some(start)
    } else {
        None
    }
}

/// The send of a release that starts at a time and is made by a pick.
fn sent_by(
    alloc: Global,
    network: &Network,
    frame: &BusFrame,
    release: u32,
    start: u64,
    pick: &Pick,
) -> Result<Sent, Memory>
    requires network { NetworkStands network.now }
    requires id { frame.now.id < IDENTIFIERS }
    requires listed { IsSize frame.now.size }
    ensures release { IfOk result (λ send. send.release ≡ release) }
    ensures start { IfOk result (λ send. send.start ≡ start) }
    ensures limit { IfOk result (λ send. send.ticks ≤ 1000000000000000000) }
    ensures picked { IfOk result (λ send. IsPicked network.now frame.now pick.now send) }
{
    let payload = Payload::of(vec![in alloc; pick.fill; frame.size as usize]?);
    let stuffed = real_ticks(network, frame.id, pick.esi, payload.as_slice());
    let shorter = u64::from(pick.shorter).min(2 * u64::from(network.nominal_ticks));
    Ok(Sent {
        release,
        start,
        esi: pick.esi,
        payload,
        ticks: stuffed - shorter,
    })
}

/// Makes one send of a run that is played: the one that starts at a time, by a pick. It answers when that
/// send ends.
fn play_send(
    alloc: Global,
    network: &Network,
    frames: &[BusFrame],
    picks: &[Pick],
    run: &mut Run,
    next: &mut [usize; MAX_FRAMES],
    end: u64,
    start: u64,
) -> Result<u64, Memory>
    requires network { NetworkStands network.now }
    requires frames { AreBusFrames frames.now }
    requires releases { ReleasesStand frames.now run.old }
    requires played { IsPlayed network.now frames.now picks.now run.old next.old end }
    requires starts { StartsAt run.old next.old end start }
    requires limit { run.old.until ≤ 1000000000000000000 }
    requires few { length run.old.releases ≤ 4294967295 }
    ensures releases { OnOk result (run.new.releases ≡ run.old.releases) }
    ensures until { OnOk result (run.new.until ≡ run.old.until) }
    ensures played { IfOk result (λ ended. IsPlayed network.now frames.now picks.now run.new next.new ended) }
    ensures fewer { OnOk result (left_of run.new next.new < left_of run.old next.old) }
{
    let pick = picked(picks, run.sent());
    let time = contends_until(network, &pick, start);
    let Some(frame) = contender(run, next, time) else {
        unreachable!();
    };
    let release = next[frame];
    let send = sent_by(alloc, network, &frames[frame], release as u32, start, &pick)?;
    let ended = start + send.ticks;
    run.push(send)?;
    next[frame] = first_from(run, frame as u32, release + 1);
    Ok(ended)
}

/// The run that stands with these releases up to `until` ticks and follows the picks: its k-th send follows
/// the k-th pick, and each send past them a pick without `join`, with `esi` false, `fill` 0 and `shorter` 0.
/// Only one run does.
pub fn play(
    alloc: Global,
    network: &Network,
    frames: &[BusFrame],
    releases: &[Release],
    picks: &[Pick],
    until: u64,
) -> Result<Run, Memory>
    requires network { NetworkStands network.now }
    requires frames { AreBusFrames frames.now }
    requires limited { IsLimited (record { releases = releases.now; sends = []; until = until }) }
    requires releases { ReleasesStand frames.now
        (record { releases = releases.now; sends = []; until = until }) }
    ensures releases { IfOk result (λ run. run.releases ≡ releases.now) }
    ensures until { IfOk result (λ run. run.until ≡ until) }
    ensures stands { IfOk result (λ run. RunStands network.now frames.now run) }
    ensures follows { IfOk result (λ run. (number : ℕ) → number < length run.sends
        → Follows network.now frames.now (pick_at picks.now number) run number) }
{
    let mut run = run_of(Vec::from_slice(alloc, releases)?, Vec::new(alloc), until);
    let mut next = first_of_each(&run);
    let mut end = 0;
    while let Some(start) = start_of(&run, &next, end) {
        end = play_send(
            alloc, network, frames, picks, &mut run, &mut next, end, start,
        )?;
    }
    Ok(run)
}
