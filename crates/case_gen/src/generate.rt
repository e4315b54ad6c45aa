//! The generator of cases.
ghost use Rattle.std.specs.Prelude.{◌≡◌, ◌+◌, ◌*◌, ◌++◌, ◌≤◌, All, IfOk, IsTrue, OnOk, codes, decimal, length};
ghost use Rattle.std.specs.List.{list_all};
ghost use Rattle.pack_model.specs.Name.{is_name_byte};
ghost use Rattle.pack_model.specs.Network.{NetworkStands};
ghost use Rattle.pack_model.specs.Signal.{SignalStands};
ghost use Rattle.case_gen.specs.Draws.{next_state, state_after};
ghost use Rattle.case_gen.specs.Generated.{case_of, count_of, signal_of, signals_of};

use crate::draws::Draws;
use pack_model::{Memory, Name, NameFault, Network, Signal, Signals};
use std::alloc::Global;

/// A generated case.
#[derive(Debug, Drop)]
pub struct Case {
    /// The network, the same in each case.
    pub network: Network,
    /// The signals, by sender.
    pub signals: Signals,
}

/// The network of each case.
const NETWORK: Network = Network {
    ticks_per_us: 80,
    nominal_ticks: 160,
    data_ticks: 40,
    first_id: 256,
};

/// The periods that are drawn from, in microseconds.
const PERIODS: [u32; 4] = [10_000, 20_000, 50_000, 100_000];

/// The name of a number: `letters` and then the number. There are at most 8 letters.
fn numbered(alloc: Global, letters: &str, number: u32) -> Result<Name, Memory>
    requires short { length letters.now ≤ 8 }
    requires letters { IsTrue (list_all is_name_byte letters.now) }
    ensures { IfOk result (λ name. name ≡ letters.now ++ decimal number) }
{
    let text = format!(in alloc; "{letters}{number}")?;
    match Name::new(alloc, text.as_bytes()) {
        Ok(name) => Ok(name),
        Err(NameFault::BadName) => unreachable!(),
        Err(NameFault::Memory) => Err(Memory),
    }
}

/// The next signal of a sender.
fn draw_signal(alloc: Global, draws: &mut Draws, sender: u32, number: u32) -> Result<Signal, Memory>
    ensures signal { IfOk result (λ signal. signal ≡ signal_of sender number draws.old.state) }
    ensures state { OnOk result (draws.new.state ≡ state_after draws.old.state 2) }
{
    let name = numbered(alloc, "S", number)?;
    let sender = numbered(alloc, "ECU", sender)?;
    let bits = 1 + draws.below(16);
    let period_us = PERIODS[draws.below(4) as usize];
    Ok(Signal {
        name,
        sender,
        pdu: None,
        bits,
        period_us,
        deadline_us: period_us,
        jitter_us: 0,
    })
}

/// Adds the signals of a sender. There are at most 1000 before.
fn add_sender(
    alloc: Global,
    draws: &mut Draws,
    sender: u32,
    signals: &mut Vec<Signal>,
) -> Result<(), Memory>
    requires { length signals.old.items ≤ 1000 }
    ensures signals { OnOk result
        (signals.new.items
        ≡ signals.old.items ++ signals_of sender (length signals.old.items + 1) draws.old.state) }
    ensures state { OnOk result
        (draws.new.state ≡ state_after (next_state draws.old.state) (2 * count_of draws.old.state)) }
{
    let first = signals.len() as u32 + 1;
    let count = 4 + draws.below(5);
    for k in 0..count {
        let signal = draw_signal(alloc, draws, sender, first + k)?;
        signals.push(signal)?;
    }
    Ok(())
}

/// The case of a number from 0 to 1000000: 2 to 4 senders with 4 to 8 free signals each, of 1 to 16 bits and a period of
/// 10, 20, 50 or 100 ms.
pub fn make_case(alloc: Global, number: u32) -> Result<Case, Memory>
    requires { number ≤ 1000000 }
    ensures case { IfOk result (λ case. case ≡ case_of number) }
    ensures network { IfOk result (λ case. NetworkStands case.network) }
    ensures signals { IfOk result (λ case. All SignalStands case.signals) }
{
    let mut draws = Draws::from(number);
    let senders = 2 + draws.below(3);
    let mut signals = Vec::new(alloc);
    for place in 0..senders {
        add_sender(alloc, &mut draws, place + 1, &mut signals)?;
    }
    Ok(Case {
        network: NETWORK,
        signals: Signals::of(signals),
    })
}
