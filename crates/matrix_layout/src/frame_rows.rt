//! The rows of one frame, part by part.
ghost use Rattle.std.specs.Prelude.{◌≡◌, ◌≤◌, ◌<◌, ◌+◌, ◌*◌, ◌++◌, All, IfOk, OnOk, length, sum};
ghost use Rattle.std.specs.List.{flat_map};
ghost use Rattle.pack_model.specs.Signal.{SignalStands};
ghost use Rattle.class_frame.specs.Legal.{ClassStands};
ghost use Rattle.matrix_layout.specs.ClassItems.{bytes_with, figures, items_at};
ghost use Rattle.matrix_layout.specs.LaidOut.{figures_of, parts_from, rows_of_items, rows_of_part, signals_at, widths_of};

use crate::class_items::places_at;
use crate::frame::Frame;
use container_pdu::Header;
use ipdu_layout::lay;
use matrix_rows::MatrixRow;
use pack_model::{Memory, Problem, Signal};
use std::alloc::Global;

/// Adds the rows of a frame that has the items of these numbers.
pub fn add_frame(
    alloc: Global,
    frame: &Frame,
    problem: &Problem,
    numbers: &[u32],
    rows: &mut Vec<MatrixRow>,
) -> Result<(), Memory>
    requires inside { All (λ number. number < length problem.now.items) numbers.now }
    requires class { ClassStands (items_at problem.now.items numbers.now) }
    requires frame { figures frame.now
        ≡ figures_of problem.now.network frame.now.id (items_at problem.now.items numbers.now) }
    ensures { OnOk result (rows.new.items ≡ rows.old.items
        ++ rows_of_items problem.now.network frame.now.id problem.now.signals
        (items_at problem.now.items numbers.now)) }
{
    match frame.header {
        Header::NoHeader => {
            let places = places_at(alloc, problem.items(), numbers)?;
            add_part(alloc, frame, 0, problem.signals(), places.as_slice(), rows)
        }
        _ => add_parts(alloc, frame, problem, numbers, rows),
    }
}

/// Adds the rows of the items of these numbers, which stand one after another, each after its header.
fn add_parts(
    alloc: Global,
    frame: &Frame,
    problem: &Problem,
    numbers: &[u32],
    rows: &mut Vec<MatrixRow>,
) -> Result<(), Memory>
    requires inside { All (λ number. number < length problem.now.items) numbers.now }
    requires room { bytes_with frame.now.header (items_at problem.now.items numbers.now) ≤ 64 }
    ensures { OnOk result (rows.new.items ≡ rows.old.items
        ++ flat_map (rows_of_part (figures frame.now) problem.now.signals)
        (parts_from frame.now.header 0 (items_at problem.now.items numbers.now))) }
{
    let items = problem.items();
    let mut next = 0;
    for &number in numbers {
        let item = &items[number as usize];
        let at = next + frame.header.bytes();
        let places = item.members.as_slice();
        add_part(alloc, frame, at, problem.signals(), places, rows)?;
        next = at + item.bits.div_ceil(8);
    }
    Ok(())
}

/// Adds the rows of a part of a frame that begins at a byte: the signals at these list places, one after
/// another.
fn add_part(
    alloc: Global,
    frame: &Frame,
    at: u32,
    signals: &[Signal],
    places: &[u32],
    rows: &mut Vec<MatrixRow>,
) -> Result<(), Memory>
    requires signals { All SignalStands signals.now }
    requires inside { All (λ place. place < length signals.now) places.now }
    requires room { 8 * at + sum (widths_of (signals_at signals.now places.now)) ≤ 512 }
    ensures { OnOk result (rows.new.items ≡ rows.old.items
        ++ rows_of_part (figures frame.now) signals.now (record { at = at; places = places.now })) }
{
    let widths = widths_at(alloc, signals, places)?;
    let mut starts = vec![in alloc; 0; places.len()]?;
    lay(widths.as_slice(), starts.as_mut_slice());
    for (number, &place) in places.iter().enumerate() {
        let start = 8 * at + starts[number];
        let row = frame.row_of(at, start, &signals[place as usize])?;
        rows.push(row)?;
    }
    Ok(())
}

/// How many bits each of the signals at these list places has.
fn widths_at(alloc: Global, signals: &[Signal], places: &[u32]) -> Result<Vec<u32>, Memory>
    requires { All (λ place. place < length signals.now) places.now }
    ensures { IfOk result (λ widths. widths.items ≡ widths_of (signals_at signals.now places.now)) }
{
    let mut widths = Vec::with_capacity(alloc, places.len())?;
    for &place in places {
        widths.push(signals[place as usize].bits)?;
    }
    Ok(widths)
}
