//! The problem of a network and its signals.
ghost use Rattle.std.specs.Prelude.{◌≡◌, ◌≤◌, ◌⊎◌, [], All, length, IfOk, IfErr, None, position};
ghost use Rattle.std.specs.Str.{bytes_eq};
ghost use Rattle.pack_model.specs.Network.{NetworkStands};
ghost use Rattle.pack_model.specs.Signal.{SignalStands};
ghost use Rattle.pack_model.specs.Problem.{Answers, IsCommonPeriod, IsProblem, IsSorted, problem_of, names_of, senders_of, periods_of, first_repeat};
ghost use Rattle.pack_model.specs.Items.{IsRepeat};
ghost use Rattle.pack_model.specs.declared.problem.ProblemFault.TheVariants.{Memory as memory};

use crate::item::Item;
use crate::items::{items_in_order, large_pdu, places_by_item, sort_by_sender};
use crate::memory::Memory;
use crate::name::Name;
use crate::network::Network;
use crate::period::{MAX_HYPER, common_period};
use crate::signal::Signal;
use indexmap::IndexSet;
use std::alloc::{AllocError, AllocFailed, Global};
use std::marker::Model;
use thiserror::Error;

/// The most signals of a problem.
pub const MAX_SIGNALS: usize = 2048;

/// The most items of a problem.
pub const MAX_ITEMS: usize = 128;

/// Why a network and signals are no problem. A row is the place in the list plus 2, since a list's
/// header is row 1.
#[derive(Clone, Copy, Debug, PartialEq, Eq, Drop, Error)]
pub enum ProblemFault {
    /// The list is empty.
    #[error("no signals")]
    NoSignals,
    /// The list has more than 2048 signals.
    #[error("too many signals")]
    TooManySignals,
    /// The first row whose name an earlier row has.
    #[error("row {0} named twice")]
    TwiceNamed(u32),
    /// The first row whose I-PDU an earlier row of another sender has.
    #[error("row {0} has a pdu of another sender")]
    PduSenders(u32),
    /// The first I-PDU, by its first row, whose signals have more than 512 bits together.
    #[error("pdu {0} too large")]
    PduTooLarge(u32),
    /// There are more than 128 items.
    #[error("too many items")]
    TooManyItems,
    /// The least common multiple of the periods is above 10^15 ticks.
    #[error("periods mixed")]
    PeriodsMixed,
    /// Memory ran out.
    #[error("out of memory")]
    Memory,
}

impl From<Memory> for ProblemFault {
    ghost from_gives = { λ _ e. e ≡ memory };

    fn from(_e: Memory) -> ProblemFault {
        ProblemFault::Memory
    }
}

impl From<AllocError> for ProblemFault {
    ghost from_gives = { λ _ e. e ≡ memory };

    fn from(_e: AllocError) -> ProblemFault {
        ProblemFault::Memory
    }
}

impl<T: Drop> From<AllocFailed<T>> for ProblemFault {
    ghost from_gives = { λ _ e. e ≡ memory };

    fn from(_e: AllocFailed<T>) -> ProblemFault {
        ProblemFault::Memory
    }
}

/// A network and signals that stand, with the items and senders that follow from them.
#[derive(Drop)]
pub struct Problem {
    network: Network,
    signals: Vec<Signal>,
    items: Vec<Item>,
    senders: IndexSet<Name>,
    names: IndexSet<Name>,
    hyper: u64,
}

impl Model for Problem {
    ghost use Rattle.pack_model.specs.Problem.{Parts};

    ghost Value = { Parts };

    ghost view = { λ a. record {
      network = a.network;
      signals = a.signals.items;
      items = a.items.items;
      senders = a.senders.keys;
      hyper = a.hyper;
    } };

    ghost use Rattle.std.specs.Prelude.{◌≡◌};
    ghost use Rattle.pack_model.specs.Problem.{names_of, IsProblem, IsSorted};

    ghost invariant = { λ a. (a.names.keys ≡ names_of a.signals.items)
        × IsSorted a.signals.items a.items.items
        × IsProblem (record {
          network = a.network;
          signals = a.signals.items;
          items = a.items.items;
          senders = a.senders.keys;
          hyper = a.hyper;
        }) };
}

impl Problem {
    /// The network.
    pub fn network(&self) -> &Network
        ensures network { result.now ≡ self.now.network }
        ensures problem { IsProblem self.now }
    {
        &self.network
    }

    /// The signals, in the order of the network designer's list.
    pub fn signals(&self) -> &[Signal]
        ensures signals { result.now ≡ self.now.signals }
        ensures problem { IsProblem self.now }
    {
        self.signals.as_slice()
    }

    /// The items, by sender and then by the list place of their first signal.
    pub fn items(&self) -> &[Item]
        ensures items { result.now ≡ self.now.items }
        ensures sorted { IsSorted self.now.signals self.now.items }
        ensures problem { IsProblem self.now }
    {
        self.items.as_slice()
    }

    /// The senders' names, by first place in the list of signals.
    pub fn senders(&self) -> &[Name]
        ensures senders { result.now ≡ self.now.senders }
        ensures problem { IsProblem self.now }
    {
        self.senders.as_slice()
    }

    /// The common period of the signals in ticks: the least common multiple of their periods, 1 to 10^15.
    pub fn hyper(&self) -> u64
        ensures hyper { result ≡ self.now.hyper }
        ensures common { IsCommonPeriod (periods_of self.now.network self.now.signals) result }
        ensures high { result ≤ MAX_HYPER }
        ensures problem { IsProblem self.now }
    {
        self.hyper
    }

    /// The list place of the signal with this name, if one has it.
    pub fn place_of(&self, name: &Name) -> Option<usize>
        ensures place { result ≡ position (bytes_eq name.now) (names_of self.now.signals) }
    {
        self.names.get_index_of(name)
    }
}

/// The problem of a network and signals.
pub fn problem_of(
    alloc: Global,
    network: Network,
    signals: Vec<Signal>,
) -> Result<Problem, ProblemFault>
    requires network { NetworkStands network }
    requires signals { All SignalStands signals.items }
    ensures { Answers result (problem_of network signals.items) }
{
    if signals.is_empty() {
        return Err(ProblemFault::NoSignals);
    }
    if signals.len() > MAX_SIGNALS {
        return Err(ProblemFault::TooManySignals);
    }
    let names = numbered_names(alloc, signals.as_slice())?;
    let places = places_by_item(alloc, signals.as_slice())?;
    let senders = numbered_senders(alloc, signals.as_slice())?;
    let mut items = items_in_order(alloc, signals.as_slice(), &senders, places)?;
    if let Some(id) = large_pdu(items.as_slice()) {
        return Err(ProblemFault::PduTooLarge(id));
    }
    if items.len() > MAX_ITEMS {
        return Err(ProblemFault::TooManyItems);
    }
    let Some(hyper) = common_period(&network, signals.as_slice()) else {
        return Err(ProblemFault::PeriodsMixed);
    };
    sort_by_sender(&mut items)?;
    Ok(Problem {
        network,
        signals,
        items,
        senders,
        names,
        hyper,
    })
}

/// The names of the signals, each at its signal's place, or the first row that is named twice.
fn numbered_names(alloc: Global, signals: &[Signal]) -> Result<IndexSet<Name>, ProblemFault>
    requires { length signals.now ≤ MAX_SIGNALS }
    ensures names { IfOk result (λ names. (names.keys ≡ names_of signals.now)
        × (first_repeat [] (names_of signals.now) ≡ None)) }
    ensures fault { IfErr result (λ e. (e ≡ memory) ⊎ IsRepeat (first_repeat [] (names_of signals.now)) e) }
{
    let mut names = IndexSet::new(alloc);
    for (place, signal) in signals.iter().enumerate() {
        let (_, is_new) = names.insert_full(signal.name.clone()?)?;
        if !is_new {
            return Err(ProblemFault::TwiceNamed(place as u32 + 2));
        }
    }
    Ok(names)
}

/// The senders' names, by first place.
fn numbered_senders(alloc: Global, signals: &[Signal]) -> Result<IndexSet<Name>, Memory>
    ensures { IfOk result (λ senders. senders.keys ≡ senders_of signals.now) }
{
    let mut senders = IndexSet::new(alloc);
    for signal in signals {
        senders.insert_full(signal.sender.clone()?)?;
    }
    Ok(senders)
}

#[cfg(test)]
mod tests {
    use super::*;
    use crate::network::network_stands;
    use crate::signal::signal_stands;
    use std::test::Fail;

    fn are_shared<T: Send + Sync>() {}

    fn signal(
        alloc: Global,
        name: &[u8],
        sender: &[u8],
        pdu: Option<u32>,
        bits: u32,
        period_us: u32,
    ) -> Result<Signal, Fail> {
        Ok(Signal {
            name: Name::new(alloc, name)?,
            sender: Name::new(alloc, sender)?,
            pdu,
            bits,
            period_us,
            deadline_us: 10000,
            jitter_us: 0,
        })
    }

    #[test]
    fn items_by_sender(rt: HostRuntime) -> Result<(), Fail> {
        are_shared::<Problem>();
        let network = Network {
            ticks_per_us: 80,
            nominal_ticks: 160,
            data_ticks: 40,
            first_id: 256,
        };
        let rows = [
            (b"S1", b"E1", Some(7), 8, 10000),
            (b"S2", b"E2", None, 3, 15000),
            (b"S3", b"E1", Some(7), 5, 20000),
        ];
        let mut signals = Vec::new(rt.alloc());
        for (name, sender, pdu, bits, period_us) in rows {
            signals.push(signal(
                rt.alloc(),
                name.as_slice(),
                sender.as_slice(),
                pdu,
                bits,
                period_us,
            )?)?;
        }
        assert!(rt; network_stands(&network) && signals.iter().all(signal_stands));
        let problem = problem_of(rt.alloc(), network, signals)?;
        let items = [
            (0, Some(7), [0, 2].as_slice(), 13),
            (1, None, [1].as_slice(), 3),
        ];
        assert_eq!(rt; problem.items().len(), items.len());
        for (item, (sender, pdu, members, bits)) in problem.items().iter().zip(items) {
            assert_eq!(rt; (item.sender, item.pdu, item.bits), (sender, pdu, bits));
            assert_eq!(rt; item.members.as_slice(), members);
        }
        assert_eq!(rt; problem.senders().len(), 2);
        assert_eq!(rt; problem.hyper(), 4_800_000);
        Ok(())
    }
}
