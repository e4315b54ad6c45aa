//! Running sums of items.
ghost use Rattle.std.specs.Prelude.{◌≡◌, ◌≤◌, ◌<◌, List, [], ◌∷◌, ◌++◌, length, All, IsTrue, IfSome, ◌↔◌};
ghost use Rattle.busy_period.specs.Timed.{IsInRange};
ghost use Rattle.fd_length.specs.Size.{IsSize};
ghost use Rattle.pack_model.specs.declared.item.Item.{Item};
ghost use Rattle.pack_model.specs.Network.{NetworkStands};
ghost use Rattle.pack_model.specs.Problem.{Parts};
ghost use Rattle.class_frame.specs.Frame.{bytes_of_items, header_of_items, load_of_items, size_of_items, timed_of_items, weight_of_item};
ghost use Rattle.class_frame.specs.Laws.{HasSignal};
ghost use Rattle.class_frame.specs.Legal.{ClassStands};
ghost use Rattle.class_frame.specs.Sums.{AreSums, IsOn, IsOneFrame, IsSmall, is_short, joined, top};

use crate::times::Times;
use busy_period::Timed;
use container_pdu::Header;
use fd_length::fd_size;
use frame_ticks::worst_ticks;
use pack_model::{Item, Network, Problem};

/// Sums of items, of at most 128 of a problem.
#[derive(Clone, Copy, Debug, PartialEq, Eq)]
pub struct Sums {
    /// How many items there are.
    pub items: u32,
    /// How many of them are I-PDUs.
    pub pdus: u32,
    /// Whether each id of an I-PDU is below 2^24.
    pub short_ids: bool,
    /// The bits of the items together.
    pub bits: u32,
    /// The bytes of the items, each rounded up alone, together.
    pub bytes: u32,
    /// The weights of the items together.
    pub weight: u32,
    /// The least number of a sender; the greatest number there is where there are no items.
    pub first_sender: u32,
    /// The greatest number of a sender.
    pub last_sender: u32,
    /// The least period of a signal in us; the greatest number there is where there are no signals.
    pub period_us: u32,
    /// The least deadline of a signal in us; the greatest number there is where there are no signals.
    pub deadline_us: u32,
    /// The greatest jitter of a signal in us.
    pub jitter_us: u32,
}

impl Sums {
    /// The sums of no items.
    pub fn none() -> Sums
        ensures { (problem : Parts) → AreSums problem [] result }
    {
        Sums {
            items: 0,
            pdus: 0,
            short_ids: true,
            bits: 0,
            bytes: 0,
            weight: 0,
            first_sender: u32::MAX,
            last_sender: 0,
            period_us: u32::MAX,
            deadline_us: u32::MAX,
            jitter_us: 0,
        }
    }

    /// The sums of one item of the problem, of at most 512 bits.
    pub fn of(problem: &Problem, item: &Item) -> Sums
        requires small { item.now.bits ≤ 512 }
        requires members { All (λ place. place < length problem.now.signals) item.now.members }
        ensures { AreSums problem.now (item.now ∷ []) result }
    {
        let times = Times::of(problem.signals(), item.members.as_slice());
        let sender = sender_of(item);
        Sums {
            items: 1,
            pdus: u32::from(item.pdu.is_some()),
            short_ids: has_short_id(item),
            bits: item.bits,
            bytes: item.bits.div_ceil(8),
            weight: weight_of(item),
            first_sender: sender,
            last_sender: sender,
            period_us: times.period_us,
            deadline_us: times.deadline_us,
            jitter_us: times.jitter_us,
        }
    }

    /// The sums of two lists of items, one after the other.
    pub fn join(self, other: Sums) -> Sums
        requires small { IsSmall (joined self other) }
        ensures value { result ≡ joined self other }
        ensures sums { (problem : Parts) (items more : List Item) → AreSums problem items self → AreSums problem more other
            → AreSums problem (items ++ more) result }
    {
        Sums {
            items: self.items + other.items,
            pdus: self.pdus + other.pdus,
            short_ids: self.short_ids && other.short_ids,
            bits: self.bits + other.bits,
            bytes: self.bytes + other.bytes,
            weight: self.weight + other.weight,
            first_sender: self.first_sender.min(other.first_sender),
            last_sender: self.last_sender.max(other.last_sender),
            period_us: self.period_us.min(other.period_us),
            deadline_us: self.deadline_us.min(other.deadline_us),
            jitter_us: self.jitter_us.max(other.jitter_us),
        }
    }

    /// The header that the items have in one frame.
    pub fn header(self) -> Header
        ensures { (problem : Parts) (items : List Item) → AreSums problem items self → result ≡ header_of_items items }
    {
        if self.pdus < 2 {
            Header::NoHeader
        } else if self.short_ids {
            Header::Short
        } else {
            Header::Long
        }
    }

    /// The bytes of the items in one frame, with headers.
    pub fn frame_bytes(self) -> u32
        requires small { IsSmall self }
        ensures { (problem : Parts) (items : List Item) → AreSums problem items self → result ≡ bytes_of_items items }
    {
        if self.pdus == 0 {
            self.bits.div_ceil(8)
        } else {
            self.pdus * self.header().bytes() + self.bytes
        }
    }

    /// The data length of the items' frame, in bytes; None above 64 bytes.
    pub fn size(self) -> Option<u32>
        requires small { IsSmall self }
        ensures value { (problem : Parts) (items : List Item) → AreSums problem items self → result ≡ size_of_items items }
        ensures listed { IfSome result IsSize }
    {
        fd_size(self.frame_bytes())
    }

    /// Whether the items can be in one frame.
    pub fn stands(self) -> bool
        requires small { IsSmall self }
        ensures { (problem : Parts) (items : List Item) → AreSums problem items self → All (λ item. item.sender ≤ top) items
            → IsTrue result ↔ ClassStands items }
    {
        self.is_one_frame(self.frame_bytes())
    }

    /// Whether the sums are those of one frame with so many bytes.
    fn is_one_frame(self, bytes: u32) -> bool
        ensures { IsTrue result ↔ IsOneFrame self bytes }
    {
        self.last_sender <= self.first_sender
            && (self.pdus == 0 || self.pdus == self.items)
            && bytes <= 64
    }

    /// The items as a frame on a network, of some signals and of at most 64 bytes. Times are in ticks.
    pub fn timed(self, network: &Network) -> Timed
        requires small { IsSmall self }
        requires stands { NetworkStands network.now }
        ensures value { (problem : Parts) (items : List Item) → IsOn problem network.now → AreSums problem items self
            → HasSignal problem items → result ≡ timed_of_items problem items }
        ensures in_range { (problem : Parts) (items : List Item) → IsOn problem network.now → AreSums problem items self
            → HasSignal problem items → IsInRange result }
    {
        let ticks_per_us = u64::from(network.ticks_per_us);
        Timed {
            period: ticks_per_us * u64::from(self.period_us),
            jitter: ticks_per_us * u64::from(self.jitter_us),
            ticks: worst_ticks(network, self.size().unwrap_or(0)),
            deadline: ticks_per_us * u64::from(self.deadline_us),
        }
    }

    /// The ticks that the items' frame takes in a common period, where it is sent once in its period.
    pub fn load(self, network: &Network, hyper: u64) -> u128
        requires small { IsSmall self }
        requires stands { NetworkStands network.now }
        requires some { (problem : Parts) × (items : List Item) × IsOn problem network.now × AreSums problem items self
            × HasSignal problem items }
        ensures { (problem : Parts) (items : List Item) → IsOn problem network.now → problem.hyper ≡ hyper
            → AreSums problem items self → HasSignal problem items → result ≡ load_of_items problem items }
    {
        let frame = self.timed(network);
        u128::from(frame.ticks) * u128::from(hyper / frame.period)
    }
}

/// Whether the item is free or has an id below 2^24.
fn has_short_id(item: &Item) -> bool
    ensures { result ≡ is_short item.now.pdu }
{
    match item.pdu {
        Some(id) => id < 1 << 24,
        None => true,
    }
}

/// The weight of an item of at most 512 bits.
fn weight_of(item: &Item) -> u32
    requires { item.now.bits ≤ 512 }
    ensures { result ≡ weight_of_item item.now }
{
    if item.pdu.is_some() {
        8 * item.bits.div_ceil(8)
    } else {
        item.bits
    }
}

/// The sender's number.
fn sender_of(item: &Item) -> u32
    ensures { result ≡ item.now.sender }
{
    item.sender
}
