//! Whether frames that are named with evidence are refuted: each below the others that are named, and above
//! all remaining ones.
ghost use Rattle.std.specs.Prelude.{◌≡◌, ◌+◌, ◌<◌, ◌≤◌, ◌++◌, ◌∷◌, ◌↔◌, ℕ, List, All, IsTrue, length, map, nat_eq, slice_index};
ghost use Rattle.std.specs.List.{list_any};
ghost use Rattle.std.specs.List.Sorted.{IsStrictlyIncreasing};
ghost use Rattle.busy_period.specs.Timed.{IsInRange};
ghost use Rattle.response_test.specs.Order.{others_of, remaining_of};
ghost use Rattle.response_test.specs.Queueing.{IsBit};
ghost use Rattle.response_test.specs.Refuted.{IsCommon};
ghost use Rattle.bandwidth_bound.specs.Failing.{AreRefuted, RefutedBelow, numbers_of, order_with};

use arrayvec::ArrayVec;
use busy_period::{Timed, blocking};
use response_test::{Evidence, refuted_blocked};

/// The numbers of the frames that are named.
fn numbers(named: &[(u32, Evidence)]) -> ArrayVec<u32, 128>
    requires { length named.now ≤ 128 }
    ensures { result.items ≡ numbers_of named.now }
{
    let mut members = ArrayVec::new();
    for (number, _) in named {
        members.push(*number);
    }
    members
}

/// Whether the numbers ascend strictly.
fn ascend(members: &[u32]) -> bool
    ensures { IsTrue result ↔ IsStrictlyIncreasing members.now }
{
    for k in 1..members.len() {
        if members[k - 1] >= members[k] {
            return false;
        }
    }
    true
}

/// Whether each number is that of one of so many frames.
fn are_there(members: &[u32], count: usize) -> bool
    ensures { IsTrue result ↔ All (λ number. number < count) members.now }
{
    members.iter().all(|number| (*number as usize) < count)
}

/// Writes the other members than a frame, in the place of what stands there.
fn write_others(order: &mut ArrayVec<u32, 128>, members: &[u32], own: u32)
    requires { length members.now ≤ 128 }
    ensures { order.new.items ≡ others_of own members.now }
{
    order.clear();
    for number in members {
        if own != *number {
            order.push(*number);
        }
    }
}

/// Writes the order in which a member is below the other ones and above the remaining frames, in the place of
/// what stands there.
fn write_below(order: &mut ArrayVec<u32, 128>, members: &[u32], own: u32, remaining: &[u32])
    requires few { length members.now ≤ 128 }
    requires room { length (others_of own members.now) + 1 + length remaining.now ≤ 128 }
    ensures { order.new.items ≡ others_of own members.now ++ own ∷ remaining.now }
{
    write_others(order, members, own);
    order.push(own);
    for number in remaining {
        order.push(*number);
    }
}

/// Whether a number is among the members.
fn is_member(members: &[u32], number: u32) -> bool
    ensures { result ≡ list_any (nat_eq number) members.now }
{
    members.iter().any(|member| number == *member)
}

/// The numbers of the frames that aren't members, ascending. It takes no memory.
pub fn remaining(frames: &[Timed], members: &[u32]) -> ArrayVec<u32, 128>
    requires { length frames.now ≤ 128 }
    ensures { result.items ≡ remaining_of frames.now members.now }
{
    let mut remaining = ArrayVec::new();
    for number in 0..frames.len() as u32 {
        if !is_member(members, number) {
            remaining.push(number);
        }
    }
    remaining
}

/// The order in which a member is below the other ones and above the remaining frames. It takes no memory.
pub fn order_below(members: &[u32], own: u32, remaining: &[u32]) -> ArrayVec<u32, 128>
    requires few { length members.now ≤ 128 }
    requires room { length (others_of own members.now) + 1 + length remaining.now ≤ 128 }
    ensures { result.items ≡ others_of own members.now ++ own ∷ remaining.now }
{
    let mut order = ArrayVec::new();
    write_below(&mut order, members, own, remaining);
    order
}

/// Puts the member of number `k` below the other ones, where the one after it was before.
fn go_back(order: &mut ArrayVec<u32, 128>, members: &[u32], k: usize)
    requires inside { k + 1 < length members.now }
    requires ascending { IsStrictlyIncreasing members.now }
    requires room { length members.now ≤ length order.old.items }
    ensures below { (rest : List ℕ)
        → order.old.items ≡ order_with (slice_index members.now (k + 1)) members.now rest
        → order.new.items ≡ order_with (slice_index members.now k) members.now rest }
{
    order.as_mut_slice().swap(k, members.len() - 1);
}

/// Whether evidence refutes each member below the other ones and above all remaining frames. The orders of two members
/// that follow each other differ in two places.
fn are_refuted(
    frames: &[Timed],
    bit: u64,
    hyper: u64,
    members: &[u32],
    named: &[(u32, Evidence)],
) -> bool
    requires few { length frames.now ≤ 128 }
    requires in_range { All IsInRange frames.now }
    requires bit { IsBit frames.now bit }
    requires hyper { IsCommon frames.now hyper }
    requires some { 0 < length named.now }
    requires members { members.now ≡ numbers_of named.now }
    requires there { All (λ number. number < length frames.now) members.now }
    requires ascending { IsStrictlyIncreasing members.now }
    ensures { IsTrue result
        ↔ All (λ entry. RefutedBelow frames.now bit hyper members.now entry.0 entry.1) named.now }
{
    let rest = remaining(frames, members);
    let last = members.len() - 1;
    let mut order = order_below(members, members[last], rest.as_slice());
    let blocked = blocking(frames, order.as_slice(), last);
    for k in (0..members.len()).rev() {
        let evidence = &named[k].1;
        if !refuted_blocked(
            frames,
            order.as_slice(),
            last,
            blocked,
            bit,
            hyper,
            evidence,
        ) {
            return false;
        }
        if k > 0 {
            go_back(&mut order, members, k - 1);
        }
    }
    true
}

/// Whether frames are named by ascending number, at least one, each with evidence that refutes it below the
/// others that are named and above all remaining ones: then they are a failing set. `bit` is the time of a
/// nominal bit in ticks, `hyper` a common period of the frames in ticks. It takes no memory, reads the
/// numbers of the evidence, and searches nothing.
pub fn refutes(frames: &[Timed], bit: u64, hyper: u64, named: &[(u32, Evidence)]) -> bool
    requires few { length frames.now ≤ 128 }
    requires in_range { All IsInRange frames.now }
    requires bit { IsBit frames.now bit }
    requires hyper { IsCommon frames.now hyper }
    ensures { IsTrue result ↔ AreRefuted frames.now bit hyper named.now }
{
    if named.is_empty() || named.len() > frames.len() {
        return false;
    }
    let members = numbers(named);
    if !ascend(members.as_slice()) || !are_there(members.as_slice(), frames.len()) {
        return false;
    }
    are_refuted(frames, bit, hyper, members.as_slice(), named)
}
