//! What one line says.
ghost use Rattle.std.specs.Prelude.{◌≡◌, ◌<◌, ◌+◌, ◌*◌, ◌^◌, nat_lt, if◌then◌else◌, ◌≤◌, ◌++◌, ◌∷◌, [], ◌↔◌, IfOk, IfSome, IsSome, IsTrue, Some, None};
ghost use Rattle.std.specs.Option.{option_map};
ghost use Rattle.std.specs.Prelude.{◌&&◌};
ghost use Rattle.std.specs.Str.{all_ascii_digits};
ghost use Rattle.csv_table.specs.Decimal.{decimal_of, value_after};
ghost use Rattle.cert_text.specs.CertText.{parts};
ghost use Rattle.cert_text.specs.Words.{BeginsNumbers, alone, before_slash, both_sides, fail_said, first_said, frame_said, inner_said, kind_of, kind_said, late_said, lemma_said, line_of, long_said, number_of, numbers_of, one, over_said, some_numbers, wide_of, worded};

use crate::cut::cut_at;
use crate::line::Line;
use crate::number::number_until;
use crate::parts::{FrameLine, Kind};
use csv_table::decimal_in;
use pack_model::{Chain, Memory};
use response_test::Evidence;
use std::alloc::Global;

/// How many bytes a number of evidence takes about, with its blank.
const NUMBER_SIZE: usize = 4;
/// How many numbers the queue of a frame has at most.
const MOST_NUMBERS: usize = 256;

fn number_in(word: &[u8]) -> Option<u64>
    ensures { result ≡ number_of word.now }
{
    decimal_in(word, 0, u64::MAX)
}

// The one number of words, in this range.
fn one_in(text: &[u8], low: u64, high: u64) -> Option<u64>
    ensures exact { result ≡ one low high (parts 32 text.now) }
    ensures small { IfSome result (λ n. n ≤ high) }
{
    match cut_at(text, b' ') {
        None => decimal_in(text, low, high),
        Some(_) => None,
    }
}

fn inner_in(text: &[u8]) -> Option<Line>
    ensures { result ≡ inner_said (parts 32 text.now) }
{
    let count = one_in(text, 1, 128)?;
    Some(Line::InnerLine(count as u32))
}

fn fail_in(text: &[u8]) -> Option<Line>
    ensures { result ≡ fail_said (parts 32 text.now) }
{
    let count = one_in(text, 0, 128)?;
    Some(Line::FailLine(count as u32))
}

fn over_in(text: &[u8]) -> Option<Line>
    ensures { result ≡ over_said (parts 32 text.now) }
{
    let label = one_in(text, 0, 127)?;
    Some(Line::AgainstLine(label as u32, Evidence::Over))
}

// Adds the number of a word, if it is one.
fn push_number(numbers: &mut Vec<u64>, word: &[u8]) -> Result<bool, Memory>
    ensures taken { IfOk result (λ t. IsTrue t
        → IfSome (number_of word.now) (λ n. numbers.new.items ≡ numbers.old.items ++ n ∷ [])) }
    ensures some { IfOk result (λ t. IsTrue t ↔ IsSome (number_of word.now)) }
{
    let Some(number) = number_in(word) else {
        return Ok(false);
    };
    numbers.push(number)?;
    Ok(true)
}

// Numbers that these bytes begin with, and the bytes after them.
fn first_numbers(alloc: Global, text: &[u8]) -> Result<(Vec<u64>, &[u8]), Memory>
    ensures { IfOk result (λ x. BeginsNumbers text.now x.0.items x.1.now) }
{
    let mut numbers = Vec::with_capacity(alloc, text.len() / NUMBER_SIZE + 1)?;
    let mut left = text;
    while let Some((number, after)) = number_until(left, b' ') {
        numbers.push(number)?;
        left = after;
    }
    Ok((numbers, left))
}

// The numbers of words, where each is one.
fn numbers_in(alloc: Global, text: &[u8]) -> Result<Option<Vec<u64>>, Memory>
    ensures { IfOk result (λ found. option_map (λ v. v.items) found ≡ some_numbers (parts 32 text.now)) }
{
    let (mut numbers, mut left) = first_numbers(alloc, text)?;
    while let Some((word, after)) = cut_at(left, b' ') {
        if !push_number(&mut numbers, word)? {
            return Ok(None);
        }
        left = after;
    }
    if !push_number(&mut numbers, left)? {
        return Ok(None);
    }
    Ok(Some(numbers))
}

fn long_in(alloc: Global, text: &[u8]) -> Result<Option<Line>, Memory>
    ensures { IfOk result (λ l. l ≡ long_said (parts 32 text.now)) }
{
    let Some((label, rest)) = cut_at(text, b' ') else {
        return Ok(None);
    };
    let Some(label) = decimal_in(label, 0, 127) else {
        return Ok(None);
    };
    let Some(numbers) = numbers_in(alloc, rest)? else {
        return Ok(None);
    };
    let chain = Chain::of(numbers);
    Ok(Some(Line::AgainstLine(label as u32, Evidence::Long(chain))))
}

fn frame_in(alloc: Global, text: &[u8]) -> Result<Option<Line>, Memory>
    ensures { IfOk result (λ l. l ≡ frame_said (parts 32 text.now)) }
{
    let Some((busy, rest)) = cut_at(text, b' ') else {
        return Ok(None);
    };
    let Some(busy) = number_in(busy) else {
        return Ok(None);
    };
    let Some(numbers) = numbers_in(alloc, rest)? else {
        return Ok(None);
    };
    if numbers.len() > MOST_NUMBERS {
        return Ok(None);
    }
    let queue = Chain::of(numbers);
    Ok(Some(Line::FrameWords(FrameLine { busy, queue })))
}

// One step of a number below 2 ^ 128.
fn wider(value: u128, digit: u8) -> Option<u128>
    requires { digit < 10 }
    ensures { result ≡ (if nat_lt (value * 10 + digit) (2 ^ 128) then Some (value * 10 + digit) else None) }
{
    value.checked_mul(10)?.checked_add(u128::from(digit))
}

fn kind_in(word: &[u8]) -> Option<Kind>
    ensures { result ≡ kind_of word.now }
{
    if word == b"placed".as_slice() {
        Some(Kind::KindPlaced)
    } else if word == b"timed".as_slice() {
        Some(Kind::KindTimed)
    } else if word == b"open".as_slice() {
        Some(Kind::KindBetween)
    } else if word == b"best".as_slice() {
        Some(Kind::KindBest)
    } else if word == b"none".as_slice() {
        Some(Kind::KindNoSolution)
    } else {
        None
    }
}

// The line of one word.
fn alone_in(word: &[u8]) -> Option<Line>
    ensures { result ≡ alone word.now }
{
    if word == b"b".as_slice() {
        Some(Line::BoundLine)
    } else if word == b"o".as_slice() {
        Some(Line::OpenLine)
    } else if word == b"shard".as_slice() {
        Some(Line::ShardLine)
    } else if word == b"join".as_slice() {
        Some(Line::JoinLine)
    } else if word == b"main".as_slice() {
        Some(Line::MainLine)
    } else if word == b"end".as_slice() {
        Some(Line::EndLine)
    } else {
        None
    }
}

// The number below 2 ^ 128 that digits alone spell.
fn wide_digits(bytes: &[u8]) -> Option<u128>
    ensures { result
        ≡ (if all_ascii_digits bytes.now && nat_lt (value_after 0 bytes.now) (2 ^ 128)
        then Some (value_after 0 bytes.now) else None) }
{
    let mut value: u128 = 0;
    for byte in bytes {
        if !byte.is_ascii_digit() {
            return None;
        }
        let Some(more) = wider(value, *byte - b'0') else {
            return None;
        };
        value = more;
    }
    Some(value)
}

fn wide_in(word: &[u8]) -> Option<u128>
    ensures { result ≡ wide_of word.now }
{
    if word.is_empty() || word.len() > 1 && word[0] == b'0' {
        return None;
    }
    wide_digits(word)
}

fn lemma_in(text: &[u8]) -> Option<Line>
    ensures { result ≡ lemma_said (parts 32 text.now) }
{
    let (sender, value) = cut_at(text, b' ')?;
    if let Some(_) = cut_at(value, b' ') {
        return None;
    }
    let sender = decimal_in(sender, 0, 255)?;
    let value = wide_in(value)?;
    Some(Line::LemmaWords {
        sender: sender as u32,
        value,
    })
}

fn kind_line_in(text: &[u8]) -> Option<Line>
    ensures { result ≡ kind_said (parts 32 text.now) }
{
    if let Some(_) = cut_at(text, b' ') {
        return None;
    }
    let kind = kind_in(text)?;
    Some(Line::KindLine(kind))
}

fn first_in(text: &[u8]) -> Option<Line>
    ensures { result ≡ first_said (parts 32 text.now) }
{
    let (second, third) = cut_at(text, b' ')?;
    if let Some(_) = cut_at(third, b' ') {
        return None;
    }
    if second == b"certificate".as_slice() && third == b"1".as_slice() {
        Some(Line::FirstLine)
    } else {
        None
    }
}

// Numbers, a slash, and numbers.
fn sides_in(alloc: Global, text: &[u8]) -> Result<Option<(Vec<u64>, Vec<u64>)>, Memory>
    ensures { IfOk result (λ found.
        option_map (λ p. (p.0.items, p.1.items)) found ≡ both_sides (before_slash (parts 32 text.now))) }
{
    let (mut numbers, mut left) = first_numbers(alloc, text)?;
    while let Some((word, after)) = cut_at(left, b' ') {
        if word == b"/".as_slice() {
            if numbers.is_empty() {
                return Ok(None);
            }
            let Some(others) = numbers_in(alloc, after)? else {
                return Ok(None);
            };
            return Ok(Some((numbers, others)));
        }
        if !push_number(&mut numbers, word)? {
            return Ok(None);
        }
        left = after;
    }
    Ok(None)
}

fn late_in(alloc: Global, text: &[u8]) -> Result<Option<Line>, Memory>
    ensures { IfOk result (λ l. l ≡ late_said (parts 32 text.now)) }
{
    let Some((label, more)) = cut_at(text, b' ') else {
        return Ok(None);
    };
    let Some((number, rest)) = cut_at(more, b' ') else {
        return Ok(None);
    };
    let Some(label) = decimal_in(label, 0, 127) else {
        return Ok(None);
    };
    let Some(q) = number_in(number) else {
        return Ok(None);
    };
    let Some((busy, queue)) = sides_in(alloc, rest)? else {
        return Ok(None);
    };
    let busy = Chain::of(busy);
    let queue = Chain::of(queue);
    Ok(Some(Line::AgainstLine(label as u32, Evidence::Late { q, busy, queue })))
}

// The line of a word and further ones.
fn worded_in(alloc: Global, word: &[u8], rest: &[u8]) -> Result<Option<Line>, Memory>
    ensures { IfOk result (λ l. l ≡ worded word.now (parts 32 rest.now)) }
{
    if word == b"i".as_slice() {
        Ok(inner_in(rest))
    } else if word == b"f".as_slice() {
        Ok(fail_in(rest))
    } else if word == b"over".as_slice() {
        Ok(over_in(rest))
    } else if word == b"late".as_slice() {
        late_in(alloc, rest)
    } else if word == b"long".as_slice() {
        long_in(alloc, rest)
    } else if word == b"frame".as_slice() {
        frame_in(alloc, rest)
    } else if word == b"lemma".as_slice() {
        Ok(lemma_in(rest))
    } else if word == b"kind".as_slice() {
        Ok(kind_line_in(rest))
    } else if word == b"canpack".as_slice() {
        Ok(first_in(rest))
    } else {
        Ok(None)
    }
}

/// What a line says, None where it is no line of certificates.
pub(crate) fn read_line(alloc: Global, line: &[u8]) -> Result<Option<Line>, Memory>
    ensures { IfOk result (λ l. l ≡ line_of line.now) }
{
    match cut_at(line, b' ') {
        None => Ok(alone_in(line)),
        Some((word, rest)) => worded_in(alloc, word, rest),
    }
}
