//! The lines of evidence, read where they stand.
ghost use Rattle.std.specs.Prelude.{◌≡◌, ◌∷◌, IfSome};
ghost use Rattle.cert_text.specs.Evidences.{BeginsAgainst, BeginsFail, BlankNumbers, EndNumbers};

use crate::number::{number_ended, number_until};
use pack_model::Chain;
use response_test::Evidence;
use std::alloc::Global;

/// For how many times of a busy period there is room at first. Most evidence has one.
const FEW: usize = 3;
/// For how many further times there is room at first. The two differ so that the allocator keeps the memory of each
/// apart from that of the other.
const SOME: usize = 6;

// Numbers with a blank behind each, and the bytes after them. None for want of memory.
#[inline(always)]
fn blank_numbers(alloc: Global, bytes: &[u8]) -> Option<(Vec<u64>, &[u8])>
    ensures { IfSome result (λ x. BlankNumbers bytes.now x.0.items x.1.now) }
{
    let Ok(mut numbers) = Vec::with_capacity(alloc, FEW) else {
        return None;
    };
    let mut left = bytes;
    while let Some((number, after)) = number_until(left, b' ') {
        let Ok(()) = numbers.push(number) else {
            return None;
        };
        left = after;
    }
    Some((numbers, left))
}

// Numbers up to a LF, and the bytes after it.
#[inline(always)]
fn end_numbers(alloc: Global, bytes: &[u8]) -> Option<(Vec<u64>, &[u8])>
    ensures { IfSome result (λ x. EndNumbers bytes.now x.0.items x.1.now) }
{
    let Ok(mut numbers) = Vec::with_capacity(alloc, SOME) else {
        return None;
    };
    let mut left = bytes;
    while let Some((number, end, after)) = number_ended(left) {
        let Ok(()) = numbers.push(number) else {
            return None;
        };
        match end {
            b' ' => left = after,
            b'\n' => return Some((numbers, after)),
            _ => return None,
        }
    }
    None
}

// After `over`.
fn over_in(bytes: &[u8]) -> Option<(u32, Evidence, &[u8])>
    ensures { IfSome result (λ x. BeginsAgainst (111 ∷ 118 ∷ 101 ∷ 114 ∷ 32 ∷ bytes.now) x.0 x.1 x.2.now) }
{
    let (label, after) = number_until(bytes, b'\n')?;
    if label > 127 {
        return None;
    }
    Some((label as u32, Evidence::Over, after))
}

// After `long`.
fn long_in(alloc: Global, bytes: &[u8]) -> Option<(u32, Evidence, &[u8])>
    ensures { IfSome result (λ x. BeginsAgainst (108 ∷ 111 ∷ 110 ∷ 103 ∷ 32 ∷ bytes.now) x.0 x.1 x.2.now) }
{
    let (label, left) = number_until(bytes, b' ')?;
    if label > 127 {
        return None;
    }
    let (busy, after) = end_numbers(alloc, left)?;
    Some((label as u32, Evidence::Long(Chain::of(busy)), after))
}

// After `late`.
#[inline(always)]
fn late_in(alloc: Global, bytes: &[u8]) -> Option<(u32, Evidence, &[u8])>
    ensures { IfSome result (λ x. BeginsAgainst (108 ∷ 97 ∷ 116 ∷ 101 ∷ 32 ∷ bytes.now) x.0 x.1 x.2.now) }
{
    let (label, left) = number_until(bytes, b' ')?;
    let (q, left) = number_until(left, b' ')?;
    let (busy, left) = blank_numbers(alloc, left)?;
    if label > 127 || busy.len() < 1 {
        return None;
    }
    let left = after_slash(left)?;
    let (queue, after) = end_numbers(alloc, left)?;
    let busy = Chain::of(busy);
    let queue = Chain::of(queue);
    Some((label as u32, Evidence::Late { q, busy, queue }, after))
}

// The bytes after a slash and a blank.
#[inline(always)]
fn after_slash(bytes: &[u8]) -> Option<&[u8]>
    ensures { IfSome result (λ x. bytes.now ≡ 47 ∷ 32 ∷ x.now) }
{
    let (first, rest) = bytes.split_first()?;
    let (second, rest) = rest.split_first()?;
    if *first != b'/' || *second != b' ' {
        return None;
    }
    Some(rest)
}

// The bytes after these two and a blank.
#[inline(always)]
fn after_two(bytes: &[u8], one: u8, other: u8) -> Option<&[u8]>
    ensures { IfSome result (λ x. bytes.now ≡ one ∷ other ∷ 32 ∷ x.now) }
{
    let (first, rest) = bytes.split_first()?;
    let (second, rest) = rest.split_first()?;
    let (third, rest) = rest.split_first()?;
    if *first != one || *second != other || *third != b' ' {
        return None;
    }
    Some(rest)
}

/// The number of the line of a fail leaf with evidence that the bytes begin with, and the bytes after its LF.
pub(crate) fn lacking_in(bytes: &[u8]) -> Option<(u32, &[u8])>
    ensures { IfSome result (λ x. BeginsFail bytes.now x.0 x.1.now) }
{
    let (first, rest) = bytes.split_first()?;
    let (second, rest) = rest.split_first()?;
    if *first != b'f' || *second != b' ' {
        return None;
    }
    let (count, after) = number_until(rest, b'\n')?;
    if count < 1 || count > 128 {
        return None;
    }
    Some((count as u32, after))
}

/// The evidence whose line the bytes begin with, with its label, and the bytes after its LF. None where that
/// isn't told, or for want of memory.
#[inline(always)]
pub(crate) fn against_in(alloc: Global, bytes: &[u8]) -> Option<(u32, Evidence, &[u8])>
    ensures { IfSome result (λ x. BeginsAgainst bytes.now x.0 x.1 x.2.now) }
{
    let (first, rest) = bytes.split_first()?;
    let (second, rest) = rest.split_first()?;
    match (*first, *second) {
        (b'l', b'a') => late_in(alloc, after_two(rest, b't', b'e')?),
        (b'l', b'o') => long_in(alloc, after_two(rest, b'n', b'g')?),
        (b'o', b'v') => over_in(after_two(rest, b'e', b'r')?),
        _ => None,
    }
}
