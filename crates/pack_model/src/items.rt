//! The items of a problem: which signals are of one item, and in which order the items stand.
ghost use Rattle.std.specs.Prelude.{◌≡◌, ◌≤◌, ◌<◌, ◌⊎◌, ℕ, [], All, length, map, sum_by, find, option_map, unwrap_or, slice_index, slice_index_or, IsTrue, IfOk, IfErr, OnOk, None, vec_len};
ghost use Rattle.std.specs.List.{list_any, position_or_len};
ghost use Rattle.std.specs.List.Sorted.{IsPermutation};
ghost use Rattle.std.specs.Str.{bytes_eq};
ghost use Rattle.pack_model.specs.Signal.{SignalStands};
ghost use Rattle.pack_model.specs.Items.{IsClash, IsPlaces, key_at, put_at, places_by_item, item_at};
ghost use Rattle.pack_model.specs.Problem.{senders_of, items_in_order, by_sender, first_clash, is_too_large};
ghost use Rattle.pack_model.specs.declared.problem.ProblemFault.TheVariants.{Memory as memory};

use crate::item::Item;
use crate::lists::Labels;
use crate::memory::Memory;
use crate::name::Name;
use crate::problem::{MAX_SIGNALS, ProblemFault};
use crate::signal::Signal;
use indexmap::IndexSet;
use std::alloc::Global;

/// What tells one item from another.
#[derive(Clone, Copy, Debug, PartialEq, Eq, Hash, Drop)]
enum Key {
    /// The free signal at this place.
    Free(u32),
    /// The I-PDU of this id.
    Pdu(u32),
}

/// The places of the signals of each item, by the list place of their first signal; or the first row
/// whose I-PDU an earlier row of another sender has.
pub fn places_by_item(alloc: Global, signals: &[Signal]) -> Result<Vec<Vec<u32>>, ProblemFault>
    requires { length signals.now ≤ MAX_SIGNALS }
    ensures places { IfOk result
        (λ places. (map (λ list. list.items) places.items ≡ places_by_item signals.now)
        × (first_clash [] signals.now ≡ None)) }
    ensures fault { IfErr result (λ e. (e ≡ memory) ⊎ IsClash (first_clash [] signals.now) e) }
{
    let mut keys = IndexSet::new(alloc);
    let mut places = Vec::new(alloc);
    for (place, signal) in signals.iter().enumerate() {
        let (number, _) = keys.insert_full(key_at(signal.pdu, place as u32))?;
        let first = put_at(alloc, &mut places, number, place as u32)?;
        if signals[first as usize].sender != signal.sender {
            return Err(ProblemFault::PduSenders(place as u32 + 2));
        }
    }
    Ok(places)
}

/// What tells the item of a signal of this I-PDU, or none, at this place.
fn key_at(pdu: Option<u32>, place: u32) -> Key
    ensures { result ≡ key_at pdu place }
{
    match pdu {
        Some(id) => Key::Pdu(id),
        None => Key::Free(place),
    }
}

/// Puts a place last in the list of a number, which may be a new last list, and gives the list's first.
fn put_at(
    alloc: Global,
    lists: &mut Vec<Vec<u32>>,
    number: usize,
    place: u32,
) -> Result<u32, Memory>
    requires { number ≤ vec_len lists.old }
    ensures lists { OnOk result (map (λ list. list.items) lists.new.items
        ≡ put_at number place (map (λ list. list.items) lists.old.items)) }
    ensures first { IfOk result (λ first. first
        ≡ slice_index_or (slice_index_or (map (λ list. list.items) lists.old.items) number []) 0 place) }
{
    if number == lists.len() {
        lists.push(Vec::new(alloc))?;
    }
    let list = &mut lists[number];
    list.push(place)?;
    Ok(list[0])
}

/// The items by the list place of their first signal, each with its sender's number.
pub fn items_in_order(
    alloc: Global,
    signals: &[Signal],
    senders: &IndexSet<Name>,
    places: Vec<Vec<u32>>,
) -> Result<Vec<Item>, Memory>
    requires few { length signals.now ≤ MAX_SIGNALS }
    requires signals { All SignalStands signals.now }
    requires senders { senders.now.keys ≡ senders_of signals.now }
    requires places { map (λ list. list.items) places.items ≡ places_by_item signals.now }
    ensures { IfOk result (λ items. items.items ≡ items_in_order signals.now) }
{
    let mut items = Vec::with_capacity(alloc, places.len())?;
    for members in places {
        items.push(item_at(signals, senders, members))?;
    }
    Ok(items)
}

/// The item of the signals at some places, of which the first gives the sender and the I-PDU.
fn item_at(signals: &[Signal], senders: &IndexSet<Name>, places: Vec<u32>) -> Item
    requires few { length signals.now ≤ MAX_SIGNALS }
    requires signals { All SignalStands signals.now }
    requires senders { senders.now.keys ≡ senders_of signals.now }
    requires places { IsPlaces signals.now places.items }
    ensures { result ≡ item_at signals.now (senders_of signals.now) places.items }
{
    let first = &signals[places[0] as usize];
    Item {
        sender: sender_number(senders, &first.sender),
        pdu: first.pdu,
        bits: bits_at(signals, places.as_slice()),
        members: Labels::of(places),
    }
}

/// The bits of the signals at some places together.
fn bits_at(signals: &[Signal], places: &[u32]) -> u32
    requires signals { All SignalStands signals.now }
    requires short { length places.now ≤ MAX_SIGNALS }
    requires inside { All (λ place. place < length signals.now) places.now }
    ensures { result ≡ sum_by (slice_index (map (λ s. s.bits) signals.now)) places.now }
{
    let mut bits = 0;
    for place in places {
        bits += signals[*place as usize].bits;
    }
    bits
}

/// The number of a sender that is there.
fn sender_number(senders: &IndexSet<Name>, sender: &Name) -> u32
    requires few { length senders.now.keys ≤ MAX_SIGNALS }
    requires there { IsTrue (list_any (bytes_eq sender.now) senders.now.keys) }
    ensures { result ≡ position_or_len (bytes_eq sender.now) senders.now.keys }
{
    match senders.get_index_of(sender) {
        Some(number) => number as u32,
        None => unreachable!(),
    }
}

/// The id of the first I-PDU that has more than 512 bits.
pub fn large_pdu(items: &[Item]) -> Option<u32>
    ensures { result ≡ option_map (λ item. unwrap_or item.pdu 0) (find is_too_large items.now) }
{
    for item in items {
        if let Some(id) = item.pdu
            && item.bits > 512
        {
            return Some(id);
        }
    }
    None
}

/// Puts the items in order of their senders' numbers; those of one sender stay in order.
pub fn sort_by_sender(items: &mut Vec<Item>) -> Result<(), Memory>
    ensures order { OnOk result ((senders : ℕ) → All (λ item. item.sender < senders) items.old.items
        → items.new.items ≡ by_sender senders items.old.items) }
    ensures same { IsPermutation items.old.items items.new.items }
{
    items.sort_by_key(|item| item.sender)?;
    Ok(())
}
