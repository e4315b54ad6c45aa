//! The frames of a bus, and runs over them: what was released and sent up to a time.
ghost use Rattle.std.specs.Prelude.{◌≡◌, ◌<◌, ◌≤◌, OnOk, length};
ghost use Rattle.bus_run.specs.Run.{Course, release_at, send_at, with_send};
ghost use Rattle.bus_run.specs.Limits.{IsLimited, ReleaseLimited, SendLimited};

use busy_period::Timed;
use pack_model::{Memory, Payload};
use std::marker::Model;

/// A frame on the bus. Frames are listed by ascending identifier, at most 128 of them, so the frame of a
/// lower number is the higher one.
#[derive(Clone, Copy, Debug, PartialEq, Eq)]
pub struct BusFrame {
    /// The identifier, below 2048.
    pub id: u32,
    /// How many data bytes it has: a size of CAN FD.
    pub size: u32,
    /// The times of the frame, in ticks; the longest sending is that of its size.
    pub timed: Timed,
}

/// One instance of a frame. Its times are at most 10^18 ticks.
#[derive(Clone, Copy, Debug, PartialEq, Eq)]
pub struct Release {
    /// The number of its frame.
    pub frame: u32,
    /// When it arrived, in ticks.
    pub arrival: u64,
    /// When it was queued, in ticks.
    pub queued: u64,
}

/// One sending on the bus. Its start and ticks are at most 10^18 each.
#[derive(Debug, Drop)]
pub struct Sent {
    /// The number of the release that is sent.
    pub release: u32,
    /// When it starts, in ticks.
    pub start: u64,
    /// Whether the sender is error passive.
    pub esi: bool,
    /// The data bytes, in the order sent.
    pub payload: Payload,
    /// How long it lasts, in ticks.
    pub ticks: u64,
}

/// What was released and sent on a bus, up to a time: at most 2^32 - 1 releases, and all times at most 10^18
/// ticks.
#[derive(Debug, Drop)]
pub struct Run {
    releases: Vec<Release>,
    sends: Vec<Sent>,
    until: u64,
}

impl Model for Run {
    ghost Value = { Course };

    ghost view = { λ a. record { releases = a.releases.items; sends = a.sends.items; until = a.until } };

    ghost invariant = { λ a. IsLimited
        (record { releases = a.releases.items; sends = a.sends.items; until = a.until }) };
}

impl Run {
    /// The releases, in the order in which they are listed.
    pub fn releases(&self) -> &[Release]
        ensures { result.now ≡ self.now.releases }
    {
        self.releases.as_slice()
    }

    /// The sends, in the order of time.
    pub fn sends(&self) -> &[Sent]
        ensures { result.now ≡ self.now.sends }
    {
        self.sends.as_slice()
    }

    /// The time up to which the run goes, in ticks.
    pub fn until(&self) -> u64
        ensures value { result ≡ self.now.until }
        ensures limit { result ≤ 1000000000000000000 }
    {
        self.until
    }

    /// How many releases there are.
    pub(crate) fn released(&self) -> usize
        ensures value { result ≡ length self.now.releases }
        ensures few { result ≤ 4294967295 }
    {
        self.releases.len()
    }

    /// How many sends there are.
    pub(crate) fn sent(&self) -> usize
        ensures { result ≡ length self.now.sends }
    {
        self.sends.len()
    }

    /// The release of a number.
    pub(crate) fn release(&self, number: usize) -> Release
        requires { number < length self.now.releases }
        ensures value { result ≡ release_at self.now number }
        ensures limited { ReleaseLimited result }
    {
        self.releases[number]
    }

    /// The send of a number.
    pub(crate) fn send(&self, number: usize) -> &Sent
        requires { number < length self.now.sends }
        ensures value { result.now ≡ send_at self.now number }
        ensures limited { SendLimited result.now }
    {
        &self.sends[number]
    }

    /// Adds a send at the end.
    pub(crate) fn push(&mut self, send: Sent) -> Result<(), Memory>
        requires { SendLimited send }
        ensures { OnOk result (self.new ≡ with_send self.old send) }
    {
        self.sends.push(send)?;
        Ok(())
    }
}

/// The run of these releases and sends up to the time `until`, in ticks. It takes no memory.
pub fn run_of(releases: Vec<Release>, sends: Vec<Sent>, until: u64) -> Run
    requires { IsLimited (record { releases = releases.items; sends = sends.items; until = until }) }
    ensures { result ≡ record { releases = releases.items; sends = sends.items; until = until } }
{
    Run {
        releases,
        sends,
        until,
    }
}
