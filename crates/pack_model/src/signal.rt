//! Signals.
ghost use Rattle.std.specs.Prelude.{IsTrue, ◌↔◌, ◌≡◌};
ghost use Rattle.pack_model.specs.Signal.{SignalStands};

use crate::name::Name;
use std::marker::Model;

/// A signal of one sender (a control unit), free or in an I-PDU.
#[derive(Debug, Drop)]
pub struct Signal {
    /// The signal's name.
    pub name: Name,
    /// The sender's name.
    pub sender: Name,
    /// The I-PDU's id, 1 to 4294967295, or none for a free signal.
    pub pdu: Option<u32>,
    /// Length in bits, 1 to 512.
    pub bits: u32,
    /// Least time between two values in microseconds, 1 to 100000000.
    pub period_us: u32,
    /// Deadline from a value's nominal arrival in microseconds, 1 to 100000000.
    pub deadline_us: u32,
    /// Greatest delay from nominal arrival to queueing in microseconds, 0 to 100000000.
    pub jitter_us: u32,
}

/// Whether each figure of the signal is in its range.
pub fn signal_stands(signal: &Signal) -> bool
    ensures { IsTrue result ↔ SignalStands signal.now }
{
    signal.pdu != Some(0)
        && (1..=512).contains(&signal.bits)
        && (1..=100_000_000).contains(&signal.period_us)
        && (1..=100_000_000).contains(&signal.deadline_us)
        && signal.jitter_us <= 100_000_000
}

/// A list of signals, in the order of the network designer's list.
#[derive(Debug, Drop)]
pub struct Signals {
    items: Vec<Signal>,
}

impl Model for Signals {
    ghost use Rattle.std.specs.Prelude.{List};
    ghost use Rattle.pack_model.specs.declared.signal.Signal.{Signal};

    ghost Value = { List Signal };

    ghost view = { λ a. a.items.items };
}

impl Signals {
    /// The list of these signals.
    pub fn of(items: Vec<Signal>) -> Signals
        ensures { result ≡ items.items }
    {
        Signals { items }
    }

    /// The signals, in order.
    pub fn as_slice(&self) -> &[Signal]
        ensures { result.now ≡ self.now }
    {
        self.items.as_slice()
    }

    /// The signals, in a vector of their own.
    pub fn into_vec(self) -> Vec<Signal>
        ensures { result.items ≡ self }
    {
        let Signals { items } = self;
        items
    }
}
