//! What is kept of a class.
ghost use Rattle.std.specs.Prelude.{◌≡◌, ◌≤◌, ◌<◌, ◌+◌, ◌-◌, ◌*◌, ◌++◌, ◌∷◌, [], List, IsTrue, ◌↔◌, nat_le, All, length};
ghost use Rattle.busy_period.specs.declared.timed.Timed.{Timed};
ghost use Rattle.pack_model.specs.Network.{NetworkStands};
ghost use Rattle.pack_model.specs.Problem.{Parts, IsProblem};
ghost use Rattle.pack_model.specs.declared.item.Item.{Item};
ghost use Rattle.class_frame.specs.Frame.{bytes_of_items, load_of_items, timed_of_items};
ghost use Rattle.class_frame.specs.Laws.{HasSignal};
ghost use Rattle.grouping_tree.specs.Class.{AreAlike, AreOneKind, IsClass, IsFill, fill_of, header_bytes_of, together};
ghost use Rattle.grouping_tree.specs.Grouped.{IsFrameLength};
ghost use Rattle.grouping_tree.specs.Slack.{slack_of};

use crate::frame_length::FrameLength;
use busy_period::Timed;
use class_frame::Sums;
use frame_ticks::worst_ticks;
use pack_model::{Item, Network, Problem};

/// What of the sums of items says what they take in one frame.
#[derive(Clone, Copy, Debug, PartialEq, Eq)]
pub(crate) struct Fill {
    /// How many of the items are I-PDUs.
    pub(crate) pdus: u32,
    /// The weights of the items together.
    pub(crate) weight: u32,
    /// The least number of a sender; the greatest number there is where there are no items.
    pub(crate) sender: u32,
    /// Whether each id of an I-PDU is below 2^24.
    pub(crate) short_ids: bool,
}

impl Fill {
    /// Of these sums.
    pub(crate) fn of(sums: Sums) -> Fill
        ensures { result ≡ fill_of sums }
    {
        Fill {
            pdus: sums.pdus,
            weight: sums.weight,
            sender: sums.first_sender,
            short_ids: sums.short_ids,
        }
    }

    /// Of two lists of items, one after the other.
    #[inline(always)]
    pub(crate) fn join(self, other: Fill) -> Fill
        requires pdus { self.pdus + other.pdus ≤ 128 }
        requires weight { self.weight + other.weight ≤ 65536 }
        ensures { result ≡ together self other }
    {
        Fill {
            pdus: self.pdus + other.pdus,
            weight: self.weight + other.weight,
            sender: self.sender.min(other.sender),
            short_ids: self.short_ids && other.short_ids,
        }
    }

    /// Whether items of one sender, all free or all I-PDUs, and others are of one sender and all free or all
    /// I-PDUs.
    #[inline(always)]
    pub(crate) fn is_like(self, other: Fill) -> bool
        ensures { IsTrue result ↔ AreAlike self other }
    {
        self.sender == other.sender && (self.pdus == 0) == (other.pdus == 0)
    }

    /// Whether the items of a class and one more can be in one frame. Items of more than 512 bits never fit, and
    /// free ones of no more always do.
    pub(crate) fn may_join(self, other: Fill) -> bool
        requires pdus { self.pdus + other.pdus ≤ 128 }
        requires weight { self.weight + other.weight ≤ 65536 }
        ensures alike { IsTrue result → AreAlike self other }
        ensures fits { (problem : Parts) (items : List Item) → AreAlike self other
            → IsFill problem items (together self other) → AreOneKind items
            → result ≡ nat_le (bytes_of_items items) 64 }
    {
        if self.sender != other.sender {
            return false;
        }
        if self.weight + other.weight > 512 {
            return false;
        }
        if self.pdus + other.pdus == 0 {
            return true;
        }
        self.is_like(other) && self.join(other).frame_bytes() <= 64
    }

    /// The header before each of the I-PDUs in one frame, in bytes.
    #[inline(always)]
    fn header_bytes(self) -> u32
        ensures few { result ≤ 8 }
        ensures value { (problem : Parts) (items : List Item) → IsFill problem items self
            → result ≡ header_bytes_of items }
    {
        if self.pdus < 2 {
            0
        } else if self.short_ids {
            4
        } else {
            8
        }
    }

    /// The bytes of the items in one frame, with headers, where they are all free or all I-PDUs.
    #[inline(always)]
    pub(crate) fn frame_bytes(self) -> u32
        requires { self.pdus ≤ 128 }
        ensures { (problem : Parts) (items : List Item) → IsFill problem items self → AreOneKind items
            → result ≡ bytes_of_items items }
    {
        if self.pdus == 0 {
            self.weight.div_ceil(8)
        } else {
            self.pdus * self.header_bytes() + self.weight / 8
        }
    }
}

/// What is kept of a class.
#[derive(Clone, Copy, Debug, PartialEq, Eq)]
pub(crate) struct Class {
    /// What its items take.
    pub(crate) fill: Fill,
    /// How often its frame is sent in a common period.
    pub(crate) share: u64,
    /// The ticks of its frame's free bits, in eighths.
    pub(crate) free: u64,
    /// Its frame, in ticks.
    pub(crate) frame: Timed,
}

impl Class {
    /// Of no items.
    pub(crate) fn none(network: &Network) -> Class
        requires { NetworkStands network.now }
        ensures { (problem : Parts) → problem.network ≡ network.now → IsClass problem [] result }
    {
        Class {
            fill: Fill::of(Sums::none()),
            share: 0,
            free: 0,
            frame: Timed {
                period: 0,
                jitter: 0,
                ticks: worst_ticks(network, 0),
                deadline: 0,
            },
        }
    }

    /// Of one item of the problem, of at most 512 bits.
    pub(crate) fn alone(problem: &Problem, item: &Item) -> Class
        requires small { item.now.bits ≤ 512 }
        requires members { All (λ place. place < length problem.now.signals) item.now.members }
        requires signal { HasSignal problem.now (item.now ∷ []) }
        ensures { IsClass problem.now (item.now ∷ []) result }
    {
        let network = problem.network();
        let sums = Sums::of(problem, item);
        let frame = sums.timed(network);
        let size = sums.size().unwrap_or(0);
        Class {
            fill: Fill::of(sums),
            share: problem.hyper() / frame.period,
            free: free_ticks(network, size, sums.weight),
            frame,
        }
    }

    /// Of the items and one more, where they take `fill` together and their frame is so long.
    #[inline(always)]
    pub(crate) fn join(
        &self,
        next: &Class,
        fill: Fill,
        long: FrameLength,
        network: &Network,
    ) -> Class
        requires stands { NetworkStands network.now }
        requires size { long.size ≤ 64 }
        ensures { (problem : Parts) (items : List Item) (item : Item) → IsProblem problem
            → problem.network ≡ network.now → HasSignal problem items → HasSignal problem (item ∷ [])
            → HasSignal problem (items ++ item ∷ []) → IsClass problem items self.now
            → IsClass problem (item ∷ []) next.now → fill ≡ together self.now.fill next.now.fill
            → IsFrameLength problem.network (bytes_of_items (items ++ item ∷ [])) long
            → IsClass problem (items ++ item ∷ []) result }
    {
        Class {
            fill,
            share: self.share.max(next.share),
            free: free_ticks(network, long.size, fill.weight),
            frame: Timed {
                period: self.frame.period.min(next.frame.period),
                jitter: self.frame.jitter.max(next.frame.jitter),
                ticks: long.ticks,
                deadline: self.frame.deadline.min(next.frame.deadline),
            },
        }
    }

    /// The ticks of its frame in a common period.
    #[inline(always)]
    pub(crate) fn load(&self) -> u128
        ensures { (problem : Parts) (items : List Item) → IsClass problem items self.now
            → result ≡ load_of_items problem items }
    {
        u128::from(self.frame.ticks) * u128::from(self.share)
    }

    /// The ticks of its frame's free bits in a common period, in eighths.
    #[inline(always)]
    pub(crate) fn slack(&self) -> u128
        ensures { (problem : Parts) (items : List Item) → IsClass problem items self.now
            → result ≡ slack_of problem items }
    {
        u128::from(self.free) * u128::from(self.share)
    }
}

/// The ticks of a frame's free bits, in eighths: of a data length of so many bytes and items of a weight.
#[inline(always)]
fn free_ticks(network: &Network, size: u32, weight: u32) -> u64
    requires stands { NetworkStands network.now }
    requires size { size ≤ 64 }
    ensures { result ≡ 10 * network.now.data_ticks * (8 * size - weight) }
{
    let free_bits = (8 * size).saturating_sub(weight);
    10 * u64::from(network.data_ticks) * u64::from(free_bits)
}
