//! The rules of one send, with a table of the first unsent release of each frame.
ghost use Rattle.std.specs.Prelude.{◌≡◌, ℕ, ◌+◌, ◌*◌, ◌<◌, ◌≤◌, ◌↔◌, IsTrue, OnOk, IfErr, length, max};
ghost use Rattle.pack_model.specs.Network.{NetworkStands};
ghost use Rattle.fd_length.specs.Size.{IsSize};
ghost use Rattle.bus_run.specs.Frames.{AreBusFrames, bus_frame_at};
ghost use Rattle.bus_run.specs.Run.{release_at, send_at, carried_by, end_before};
ghost use Rattle.bus_run.specs.Limits.{SendLimited, ReleaseLimited};
ghost use Rattle.bus_run.specs.Rules.{TakesFirst, Fits, Lasts, LastsAsSent, StartsInTime, HasJoined};
ghost use Rattle.bus_run.specs.Rules.{IsHighest, IsInOrder, SendStands, SendBreaks, ReleasesStand};
ghost use Rattle.bus_run.specs.Tables.{HaveNext, IsLeastBelow, NoneIn, QueuedAfter, FramesBelow};

use crate::run::{BusFrame, Run, Sent};
use crate::unsent::{least_queued, queued_after};
use busy_period::MAX_FRAMES;
use frame_ticks::{IDENTIFIERS, real_ticks};
use pack_model::Network;

/// Whether a send takes the first unsent release of its frame. `next` has the first unsent one of each frame.
fn takes_first(run: &Run, number: usize, next: &[usize; MAX_FRAMES]) -> bool
    requires inside { number < length run.now.sends }
    requires below { FramesBelow run.now }
    requires next { HaveNext run.now number next.now }
    ensures { IsTrue result ↔ TakesFirst run.now number }
{
    let release = run.send(number).release as usize;
    release < run.released() && next[run.release(release).frame as usize] == release
}

/// Whether the payload of a send has its frame's size.
fn fits(frames: &[BusFrame], run: &Run, number: usize) -> bool
    requires inside { number < length run.now.sends }
    requires takes { TakesFirst run.now number }
    requires releases { ReleasesStand frames.now run.now }
    ensures { IsTrue result ↔ Fits frames.now run.now number }
{
    let send = run.send(number);
    let release = run.release(send.release as usize);
    send.payload.as_slice().len() == frames[release.frame as usize].size as usize
}

/// Whether a send lasts as long as its bits do.
fn lasts_as_sent(network: &Network, frame: &BusFrame, send: &Sent) -> bool
    requires network { NetworkStands network.now }
    requires id { frame.now.id < IDENTIFIERS }
    requires listed { IsSize frame.now.size }
    requires fits { length send.now.payload ≡ frame.now.size }
    requires limited { SendLimited send.now }
    ensures { IsTrue result ↔ LastsAsSent network.now frame.now send.now }
{
    let stuffed = real_ticks(network, frame.id, send.esi, send.payload.as_slice());
    send.ticks <= stuffed && stuffed <= send.ticks + 2 * u64::from(network.nominal_ticks)
}

/// Whether a send lasts as long as its bits do on its frame.
fn lasts(network: &Network, frames: &[BusFrame], run: &Run, number: usize) -> bool
    requires network { NetworkStands network.now }
    requires frames { AreBusFrames frames.now }
    requires inside { number < length run.now.sends }
    requires takes { TakesFirst run.now number }
    requires releases { ReleasesStand frames.now run.now }
    requires fits { Fits frames.now run.now number }
    ensures { IsTrue result ↔ Lasts network.now frames.now run.now number }
{
    let send = run.send(number);
    let release = run.release(send.release as usize);
    lasts_as_sent(network, &frames[release.frame as usize], send)
}

/// Whether a send starts when the one before has ended and something is queued, before the run ends.
fn starts_in_time(run: &Run, number: usize, next: &[usize; MAX_FRAMES], end: u64) -> bool
    requires inside { number < length run.now.sends }
    requires below { FramesBelow run.now }
    requires order { (release : ℕ) → release < length run.now.releases → IsInOrder run.now release }
    requires next { HaveNext run.now number next.now }
    requires end { end ≡ end_before run.now number }
    ensures { IsTrue result ↔ StartsInTime run.now number }
{
    let start = run.send(number).start;
    match least_queued(run, next) {
        Some(least) => start == end.max(least) && start < run.until(),
        None => false,
    }
}

/// Whether what is sent was queued less than a nominal bit after the start.
fn has_joined(network: &Network, run: &Run, number: usize) -> bool
    requires inside { number < length run.now.sends }
    requires takes { TakesFirst run.now number }
    ensures { IsTrue result ↔ HasJoined network.now run.now number }
{
    let send = run.send(number);
    run.release(send.release as usize).queued < send.start + u64::from(network.nominal_ticks)
}

/// Whether no release of a higher frame is queued by the start of a send.
fn is_highest(run: &Run, number: usize, next: &[usize; MAX_FRAMES]) -> bool
    requires inside { number < length run.now.sends }
    requires takes { TakesFirst run.now number }
    requires below { FramesBelow run.now }
    requires order { (release : ℕ) → release < length run.now.releases → IsInOrder run.now release }
    requires next { HaveNext run.now number next.now }
    ensures { IsTrue result ↔ IsHighest run.now number }
{
    let send = run.send(number);
    let frame = run.release(send.release as usize).frame as usize;
    queued_after(run, next, frame, send.start)
}

/// Whether a send stands, or the first rule that it breaks, from 5 to 10. `next` has the first unsent release
/// of each frame, and `end` is when the send before ends.
pub(crate) fn send_stands(
    network: &Network,
    frames: &[BusFrame],
    run: &Run,
    number: usize,
    next: &[usize; MAX_FRAMES],
    end: u64,
) -> Result<(), u8>
    requires network { NetworkStands network.now }
    requires frames { AreBusFrames frames.now }
    requires releases { ReleasesStand frames.now run.now }
    requires inside { number < length run.now.sends }
    requires below { FramesBelow run.now }
    requires order { (release : ℕ) → release < length run.now.releases → IsInOrder run.now release }
    requires next { HaveNext run.now number next.now }
    requires end { end ≡ end_before run.now number }
    ensures stands { OnOk result (SendStands network.now frames.now run.now number) }
    ensures breaks { IfErr result (λ rule. SendBreaks network.now frames.now run.now number rule) }
{
    if !takes_first(run, number, next) {
        return Err(5);
    }
    if !fits(frames, run, number) {
        return Err(6);
    }
    if !lasts(network, frames, run, number) {
        return Err(7);
    }
    if !starts_in_time(run, number, next, end) {
        return Err(8);
    }
    if !has_joined(network, run, number) {
        return Err(9);
    }
    if !is_highest(run, number, next) {
        return Err(10);
    }
    Ok(())
}
