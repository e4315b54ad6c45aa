//! Writing the lines of certificates.
ghost use Rattle.std.specs.Prelude.{◌≡◌, ◌<◌, ◌^◌, ◌++◌, ◌∷◌, [], OnOk, codes, decimal};
ghost use Rattle.response_test.specs.declared.evidence.Evidence.TheVariants as evidence;
ghost use Rattle.cert_text.specs.declared.line.Line.TheVariants as line;
ghost use Rattle.cert_text.specs.Adding.{Adds, numbers_text};
ghost use Rattle.cert_text.specs.Lines.{AreNumbers, ended, kind_name};

use crate::line::Line;
use crate::parts::{FrameLine, Kind};
use itoa::Buffer;
use pack_model::Memory;
use response_test::Evidence;

// Adds bytes and LF.
fn put_ended(out: &mut Vec<u8>, bytes: &[u8]) -> Result<(), Memory>
    ensures { OnOk result (out.new.items ≡ out.old.items ++ ended bytes.now) }
{
    out.extend_from_slice(bytes)?;
    out.push(b'\n')?;
    Ok(())
}

// Adds a number after a space.
fn put_number(out: &mut Vec<u8>, number: u64) -> Result<(), Memory>
    ensures text { OnOk result (out.new.items ≡ out.old.items ++ 32 ∷ decimal number) }
    // By its type.
    ensures fits { number < 2 ^ 64 }
{
    let mut digits = Buffer::new();
    out.push(b' ')?;
    out.extend_from_slice(digits.format(number).as_bytes())?;
    Ok(())
}

// Adds a number after a space.
fn put_wide(out: &mut Vec<u8>, number: u128) -> Result<(), Memory>
    ensures text { OnOk result (out.new.items ≡ out.old.items ++ 32 ∷ decimal number) }
    // By its type.
    ensures fits { number < 2 ^ 128 }
{
    let mut digits = Buffer::new();
    out.push(b' ')?;
    out.extend_from_slice(digits.format(number).as_bytes())?;
    Ok(())
}

// Adds numbers, each after a space.
fn put_numbers(out: &mut Vec<u8>, numbers: &[u64]) -> Result<(), Memory>
    ensures text { OnOk result (out.new.items ≡ out.old.items ++ numbers_text numbers.now) }
    // By their type.
    ensures fits { AreNumbers numbers.now }
{
    for number in numbers {
        put_number(out, *number)?;
    }
    Ok(())
}

// Adds a word, a number and LF.
fn put_counted(out: &mut Vec<u8>, word: &[u8], count: usize) -> Result<(), Memory>
    ensures { OnOk result (out.new.items ≡ out.old.items ++ ended (word.now ++ 32 ∷ decimal count)) }
{
    out.extend_from_slice(word)?;
    put_number(out, count as u64)?;
    out.push(b'\n')?;
    Ok(())
}

/// Adds the line of a frame.
pub(crate) fn put_frame(out: &mut Vec<u8>, frame: &FrameLine) -> Result<(), Memory>
    ensures { OnOk result (Adds out.old.items out.new.items (line.FrameWords frame.now ∷ [])) }
{
    out.extend_from_slice(b"frame")?;
    put_number(out, frame.busy)?;
    put_numbers(out, frame.queue.as_slice())?;
    out.push(b'\n')?;
    Ok(())
}

// Adds the line of a lemma.
fn put_lemma_line(out: &mut Vec<u8>, sender: u32, value: u128) -> Result<(), Memory>
    ensures { OnOk result (Adds out.old.items out.new.items (line.LemmaWords sender value ∷ [])) }
{
    out.extend_from_slice(b"lemma")?;
    put_number(out, u64::from(sender))?;
    put_wide(out, value)?;
    out.push(b'\n')?;
    Ok(())
}

/// Adds the line of an inner node with so many subtrees.
pub(crate) fn put_inner_line(out: &mut Vec<u8>, count: usize) -> Result<(), Memory>
    ensures { OnOk result (Adds out.old.items out.new.items (line.InnerLine count ∷ [])) }
{
    put_counted(out, b"i", count)
}

/// Adds the line of a fail leaf with so many pieces of evidence.
pub(crate) fn put_fail_line(out: &mut Vec<u8>, count: usize) -> Result<(), Memory>
    ensures { OnOk result (Adds out.old.items out.new.items (line.FailLine count ∷ [])) }
{
    put_counted(out, b"f", count)
}

// Adds the line of a climb past the longest busy period.
fn put_long(out: &mut Vec<u8>, label: u32, busy: &[u64]) -> Result<(), Memory>
    ensures { OnOk result (Adds out.old.items out.new.items (line.AgainstLine label (evidence.Long busy.now) ∷ [])) }
{
    out.extend_from_slice(b"long")?;
    put_number(out, u64::from(label))?;
    put_numbers(out, busy)?;
    out.push(b'\n')?;
    Ok(())
}

// Adds the line of an instance that ends late.
fn put_late(
    out: &mut Vec<u8>,
    label: u32,
    q: u64,
    busy: &[u64],
    queue: &[u64],
) -> Result<(), Memory>
    ensures { OnOk result (Adds out.old.items out.new.items
        (line.AgainstLine label (evidence.Late q busy.now queue.now) ∷ [])) }
{
    out.extend_from_slice(b"late")?;
    put_number(out, u64::from(label))?;
    put_number(out, q)?;
    put_numbers(out, busy)?;
    out.extend_from_slice(b" /")?;
    put_numbers(out, queue)?;
    out.push(b'\n')?;
    Ok(())
}

// Adds the line of evidence that classes ask for more than the whole bus.
fn put_over(out: &mut Vec<u8>, label: u32) -> Result<(), Memory>
    ensures { OnOk result (Adds out.old.items out.new.items (line.AgainstLine label evidence.Over ∷ [])) }
{
    put_counted(out, b"over", label as usize)
}

/// Adds the line of evidence against the class with this label.
pub(crate) fn put_against(out: &mut Vec<u8>, label: u32, evidence: &Evidence) -> Result<(), Memory>
    ensures { OnOk result (Adds out.old.items out.new.items (line.AgainstLine label evidence.now ∷ [])) }
{
    match evidence {
        Evidence::Over => put_over(out, label),
        Evidence::Long(busy) => put_long(out, label, busy.as_slice()),
        Evidence::Late { q, busy, queue } => {
            put_late(out, label, *q, busy.as_slice(), queue.as_slice())
        }
    }
}

fn kind_line(kind: Kind) -> &'static [u8]
    ensures { result.now ≡ codes "kind " ++ kind_name kind }
{
    match kind {
        Kind::KindPlaced => b"kind placed",
        Kind::KindTimed => b"kind timed",
        Kind::KindBetween => b"kind open",
        Kind::KindBest => b"kind best",
        Kind::KindNoSolution => b"kind none",
    }
}

/// Adds a line.
pub(crate) fn put_line(out: &mut Vec<u8>, line: &Line) -> Result<(), Memory>
    ensures { OnOk result (Adds out.old.items out.new.items (line.now ∷ [])) }
{
    match line {
        Line::FirstLine => put_ended(out, b"canpack certificate 1"),
        Line::KindLine(kind) => put_ended(out, kind_line(*kind)),
        Line::FrameWords(frame) => put_frame(out, frame),
        Line::LemmaWords { sender, value } => put_lemma_line(out, *sender, *value),
        Line::MainLine => put_ended(out, b"main"),
        Line::InnerLine(count) => put_inner_line(out, *count as usize),
        Line::BoundLine => put_ended(out, b"b"),
        Line::OpenLine => put_ended(out, b"o"),
        Line::FailLine(count) => put_fail_line(out, *count as usize),
        Line::AgainstLine(label, evidence) => put_against(out, *label, evidence),
        Line::ShardLine => put_ended(out, b"shard"),
        Line::JoinLine => put_ended(out, b"join"),
        Line::EndLine => put_ended(out, b"end"),
    }
}
