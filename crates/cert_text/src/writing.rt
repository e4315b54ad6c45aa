//! Writing a certificate.
ghost use Rattle.std.specs.Prelude.{◌≡◌, ◌++◌, ◌∷◌, [], IfOk, OnOk, Ok, map};
ghost use Rattle.std.specs.Option.{option_copied, option_map};
ghost use Rattle.std.specs.List.{flat_map};
ghost use Rattle.cert_text.specs.declared.event.Event.TheVariants as event;
ghost use Rattle.cert_text.specs.declared.line.Line.TheVariants as line;
ghost use Rattle.cert_text.specs.Adding.{Adds, closing, opening, tree_lines};
ghost use Rattle.cert_text.specs.CertEvents.{lemma_events, main_events};
ghost use Rattle.cert_text.specs.CertText.{CertText};
ghost use Rattle.cert_text.specs.Lines.{against, cert_lines, lines_of, text_of};
ghost use Rattle.cert_text.specs.Parts.{HasParts};
ghost use Rattle.cert_text.specs.PlainTree.{onto, plain_lemma, plain_of};
ghost use Rattle.cert_text.specs.Reading.{cert_of_text};
ghost use Rattle.cert_text.specs.Trees.{inner, none};
ghost use Rattle.cert_text.specs.Written.{CertFits, below, lemma_marks, main_marks, with_marks, written_cert, written_lemma};

use crate::line::Line;
use crate::lines::{put_against, put_fail_line, put_frame, put_inner_line, put_line};
use crate::parts::{Cert, FrameLine, Lemma, Refuted, Tree};
use pack_model::Memory;
use std::alloc::Global;

/// How many items the grouping of a marked node of the main tree has.
const MARKED_AT: u32 = 3;

// Adds the lines of frames.
fn put_frames(out: &mut Vec<u8>, frames: &[FrameLine]) -> Result<(), Memory>
    ensures { OnOk result (Adds out.old.items out.new.items (lines_of (map event.FrameOf frames.now))) }
{
    for frame in frames {
        put_frame(out, frame)?;
    }
    Ok(())
}

// Adds the lines of a fail leaf.
fn put_fail(out: &mut Vec<u8>, refuted: &Refuted) -> Result<(), Memory>
    ensures { OnOk result (Adds out.old.items out.new.items (lines_of (event.FailLeaf refuted.now ∷ []))) }
{
    let pieces = refuted.as_slice();
    put_fail_line(out, pieces.len())?;
    for (label, evidence) in pieces {
        put_against(out, *label, evidence)?;
    }
    Ok(())
}

// Adds the line before an inner node that is marked here.
fn put_opening(out: &mut Vec<u8>, marks: Option<u32>) -> Result<(), Memory>
    ensures { OnOk result (Adds out.old.items out.new.items (opening marks)) }
{
    if let Some(0) = marks {
        put_line(out, &Line::ShardLine)?;
    }
    Ok(())
}

// Adds the line after it.
fn put_closing(out: &mut Vec<u8>, marks: Option<u32>) -> Result<(), Memory>
    ensures { OnOk result (Adds out.old.items out.new.items (closing marks)) }
{
    if let Some(0) = marks {
        put_line(out, &Line::JoinLine)?;
    }
    Ok(())
}

// Where the marks stand, seen from a subtree.
fn marks_below(marks: Option<u32>) -> Option<u32>
    ensures { result ≡ below marks }
{
    match marks {
        None | Some(0) => None,
        Some(above) => Some(above - 1),
    }
}

// Where a lemma's tree is marked.
fn lemma_marks(marks: bool) -> Option<u32>
    ensures { result ≡ lemma_marks marks }
{
    if marks { Some(0) } else { None }
}

// Where the main tree is marked.
fn main_marks(marks: bool) -> Option<u32>
    ensures { result ≡ main_marks marks }
{
    if marks { Some(MARKED_AT) } else { None }
}

// Adds the lines of an inner node.
#[cycle(tree)]
fn put_inner(out: &mut Vec<u8>, subtrees: &Vec<Tree>, marks: Option<u32>) -> Result<(), Memory>
    ensures { OnOk result (Adds out.old.items out.new.items
        (tree_lines marks (inner (onto (map plain_of subtrees.now.items) none)))) }
{
    let marks_there = marks_below(marks);
    put_opening(out, marks)?;
    put_inner_line(out, subtrees.len())?;
    for subtree in subtrees {
        put_tree(out, subtree, marks_there)?;
    }
    put_closing(out, marks)?;
    Ok(())
}

// Adds the lines of a tree.
#[cycle(tree)]
fn put_tree(out: &mut Vec<u8>, tree: &Tree, marks: Option<u32>) -> Result<(), Memory>
    ensures { OnOk result (Adds out.old.items out.new.items (tree_lines marks (plain_of tree.now))) }
{
    match tree {
        Tree::Inner(subtrees) => put_inner(out, subtrees, marks),
        Tree::Bound => put_line(out, &Line::BoundLine),
        Tree::Left => put_line(out, &Line::OpenLine),
        Tree::Fail(refuted) => put_fail(out, refuted),
    }
}

// Adds the lines of a lemma, whose tree is marked whole with marks.
fn put_lemma(out: &mut Vec<u8>, lemma: &Lemma, marks: bool) -> Result<(), Memory>
    ensures { OnOk result (Adds out.old.items out.new.items
        (lines_of (lemma_events (written_lemma marks (plain_lemma lemma.now))))) }
{
    let shard = lemma_marks(marks);
    put_line(
        out,
        &Line::LemmaWords {
            sender: lemma.sender,
            value: lemma.value,
        },
    )?;
    put_opening(out, shard)?;
    put_tree(out, &lemma.tree, None)?;
    put_closing(out, shard)?;
    Ok(())
}

// Adds the lines of lemmas.
fn put_lemmas(out: &mut Vec<u8>, lemmas: &[Lemma], marks: bool) -> Result<(), Memory>
    ensures { OnOk result (Adds out.old.items out.new.items
        (lines_of (flat_map lemma_events (map (written_lemma marks) (map plain_lemma lemmas.now))))) }
{
    for lemma in lemmas {
        put_lemma(out, lemma, marks)?;
    }
    Ok(())
}

// Adds the lines of a main tree, if there is one.
fn put_main(out: &mut Vec<u8>, tree: Option<&Tree>, marks: bool) -> Result<(), Memory>
    ensures { OnOk result (Adds out.old.items out.new.items
        (lines_of (main_events (option_map (with_marks (main_marks marks))
        (option_map plain_of (option_copied tree.entry)))))) }
{
    let Some(tree) = tree else {
        return Ok(());
    };
    put_line(out, &Line::MainLine)?;
    put_tree(out, tree, main_marks(marks))?;
    Ok(())
}

// Adds the lines of a certificate.
fn put_cert(out: &mut Vec<u8>, cert: &Cert, marks: bool) -> Result<(), Memory>
    ensures lines { OnOk result (Adds out.old.items out.new.items (cert_lines (written_cert marks cert.now))) }
    // By its type.
    ensures has_parts { HasParts cert.now.kind cert.now.frames cert.now.lemmas cert.now.main_tree }
{
    let kind = cert.kind();
    put_line(out, &Line::FirstLine)?;
    put_line(out, &Line::KindLine(kind))?;
    put_frames(out, cert.frames())?;
    put_lemmas(out, cert.lemmas(), marks)?;
    put_main(out, cert.main_tree(), marks)?;
    put_line(out, &Line::EndLine)?;
    Ok(())
}

/// The text of a certificate in the format of CERT. With `marks` each lemma's tree is marked, and each inner node of
/// the main tree that stands at a grouping of exactly 3 items. There are 1 to 256 numbers in each frame's queue, at most
/// 128 inner nodes on a path, 1 to 128 subtrees of a node, at most 128 pieces of evidence, and at least one number in
/// each of their lists; labels are at most 127, and senders at most 255.
pub fn write_cert(alloc: Global, cert: &Cert, marks: bool) -> Result<Vec<u8>, Memory>
    requires fits { CertFits cert.now }
    // The lines of the certificate with these marks,
    ensures exact { IfOk result (λ v. v.items ≡ text_of (cert_lines (written_cert marks cert.now))) }
    // which are a text of it,
    ensures text { IfOk result (λ v. CertText v.items cert.now) }
    // and `read_cert` of the text gives it back.
    ensures reads_back { IfOk result (λ v. cert_of_text v.items ≡ Ok cert.now) }
{
    let mut out = Vec::new(alloc);
    put_cert(&mut out, cert, marks)?;
    Ok(out)
}
