//! The text of signals.
ghost use Rattle.std.specs.Prelude.{◌≡◌, ◌≤◌, ◌++◌, [], length, map, All, IfOk, OnOk, Ok};
ghost use Rattle.csv.specs.Records.{fields_of};
ghost use Rattle.csv.specs.Writing.{default_writer, row_text};
ghost use Rattle.csv_table.specs.Gives.{column_of};
ghost use Rattle.csv_table.specs.Writing.{rows_text};
ghost use Rattle.pack_model.specs.Gives.{Gives};
ghost use Rattle.pack_model.specs.Signal.{SignalStands};
ghost use Rattle.input_text.specs.SignalsText.{ReadsBack, SignalsText, signal_fields, signal_of, signals_from, signals_of, signals_refusal, signals_text};
ghost use Rattle.input_text.specs.declared.signals.SignalsFault.TheVariants as fault;

use csv::ByteRecord;
use csv_table::{ColumnFault, Rows, RowsWriter, count_at, name_at, number_at, optional_at};
use pack_model::{MAX_SIGNALS, Memory, Signal};
use std::alloc::{AllocFailed, Global};
use thiserror::Error;

/// The first row that is one signal too many: the header is row 1.
const TOO_LATE: u32 = 2050;

const SIGNALS_HEADER: [&[u8]; 7] = [
    b"signal",
    b"sender",
    b"pdu",
    b"bits",
    b"period_us",
    b"deadline_us",
    b"jitter_us",
];

/// Why a text has no signals.
#[derive(Clone, Copy, Debug, Drop, PartialEq, Eq, Error)]
pub enum SignalsFault {
    /// The first record isn't the header.
    #[error("no header of signals")]
    BadHeader,
    /// The first row that fails, counted from 1 for the header, and its least column that breaks its rule,
    /// counted from 1, or 0 for the count of fields.
    #[error("column {column} of row {row} breaks its rule")]
    BadRow { row: u32, column: u8 },
    /// There are more than 2048 signals.
    #[error("more than 2048 signals")]
    TooManySignals,
    /// Memory ran out.
    #[error("out of memory")]
    Memory,
}

impl From<Memory> for SignalsFault {
    ghost use Rattle.std.specs.Prelude.{◌≡◌};
    ghost use Rattle.input_text.specs.declared.signals.SignalsFault.TheVariants as fault;

    ghost from_gives = { λ _ e. e ≡ fault.Memory };

    fn from(_e: Memory) -> SignalsFault {
        SignalsFault::Memory
    }
}

impl<T: Drop> From<AllocFailed<T>> for SignalsFault {
    ghost use Rattle.std.specs.Prelude.{◌≡◌};
    ghost use Rattle.input_text.specs.declared.signals.SignalsFault.TheVariants as fault;

    ghost from_gives = { λ _ e. e ≡ fault.Memory };

    fn from(_e: AllocFailed<T>) -> SignalsFault {
        SignalsFault::Memory
    }
}

fn read_signal(alloc: Global, row: &ByteRecord) -> Result<Signal, ColumnFault>
    ensures { Gives (λ x. x) column_of result (signal_of (fields_of row.now)) }
{
    count_at(row, 7)?;
    let name = name_at(alloc, row, 1)?;
    let sender = name_at(alloc, row, 2)?;
    let pdu = optional_at(row, 3, 1, u32::MAX)?;
    let bits = number_at(row, 4, 1, 512)?;
    let period_us = number_at(row, 5, 1, 100_000_000)?;
    let deadline_us = optional_at(row, 6, 1, 100_000_000)?.unwrap_or(period_us);
    let jitter_us = optional_at(row, 7, 0, 100_000_000)?.unwrap_or(0);
    Ok(Signal {
        name,
        sender,
        pdu,
        bits,
        period_us,
        deadline_us,
        jitter_us,
    })
}

// The signals of the records that are left, from row 2 on.
fn read_signal_rows(
    alloc: Global,
    rows: &mut Rows<'_>,
    row: &mut ByteRecord,
) -> Result<Vec<Signal>, SignalsFault>
    ensures { Gives (λ v. v.items) signals_refusal result (signals_from 2 rows.old) }
{
    let mut signals = Vec::new(alloc);
    for number in 2..TOO_LATE {
        if !rows.next(row)? {
            return Ok(signals);
        }
        match read_signal(alloc, row) {
            Ok(signal) => signals.push(signal)?,
            Err(ColumnFault::Column(column)) => return Err(SignalsFault::BadRow {
                row: number,
                column,
            }),
            Err(ColumnFault::Memory) => return Err(SignalsFault::Memory),
        }
    }
    if rows.next(row)? {
        return Err(SignalsFault::TooManySignals);
    }
    Ok(signals)
}

/// The signals of a text in the format of SIGNALS: CSV with the header
/// `signal,sender,pdu,bits,period_us,deadline_us,jitter_us`. A byte order mark at the front is passed over.
pub fn read_signals(alloc: Global, text: &[u8]) -> Result<Vec<Signal>, SignalsFault>
    // The signals of the text, or its first refusal.
    ensures exact { Gives (λ v. v.items) signals_refusal result (signals_of text.now) }
    // The signals are in their ranges, and at most 2048.
    ensures stand { IfOk result (λ v. All SignalStands v.items) }
    ensures few { IfOk result (λ v. length v.items ≤ MAX_SIGNALS) }
{
    read_all_signals(alloc, text)
}

fn read_all_signals(alloc: Global, text: &[u8]) -> Result<Vec<Signal>, SignalsFault>
    ensures { Gives (λ v. v.items) signals_refusal result (signals_of text.now) }
{
    let mut rows = Rows::of_text(alloc, text);
    let mut row = ByteRecord::new(alloc);
    if !rows.next_is(&mut row, &SIGNALS_HEADER)? {
        return Err(SignalsFault::BadHeader);
    }
    read_signal_rows(alloc, &mut rows, &mut row)
}

// Adds the row of a signal.
fn write_signal(out: &mut RowsWriter, signal: &Signal) -> Result<(), Memory>
    requires stands { SignalStands signal.now }
    requires at_start { out.old.row ≡ [] }
    ensures text { OnOk result
        (out.new.text ≡ out.old.text ++ row_text default_writer (signal_fields signal.now)) }
    ensures row { OnOk result (out.new.row ≡ []) }
    ensures reads_back { OnOk result (ReadsBack signal.now) }
{
    out.field(signal.name.bytes())?;
    out.field(signal.sender.bytes())?;
    out.optional(signal.pdu)?;
    out.number(u64::from(signal.bits))?;
    out.number(u64::from(signal.period_us))?;
    out.number(u64::from(signal.deadline_us))?;
    out.number(u64::from(signal.jitter_us))?;
    out.end()
}

// Adds the rows of signals.
fn write_signal_rows(out: &mut RowsWriter, signals: &[Signal]) -> Result<(), Memory>
    requires stand { All SignalStands signals.now }
    requires at_start { out.old.row ≡ [] }
    ensures text { OnOk result (out.new.text ≡ out.old.text ++ rows_text (map signal_fields signals.now)) }
    ensures reads_back { OnOk result (All ReadsBack signals.now) }
{
    for signal in signals {
        write_signal(out, signal)?;
    }
    Ok(())
}

/// The text of signals in the format of SIGNALS, every column in full.
pub fn write_signals(alloc: Global, signals: &[Signal]) -> Result<Vec<u8>, Memory>
    requires stand { All SignalStands signals.now }
    requires few { length signals.now ≤ MAX_SIGNALS }
    ensures exact { IfOk result (λ v. v.items ≡ signals_text signals.now) }
    // `read_signals` of the text gives the same signals.
    ensures reads_back { IfOk result (λ v. SignalsText v.items signals.now) }
{
    let mut out = RowsWriter::new(alloc);
    out.row(&SIGNALS_HEADER)?;
    write_signal_rows(&mut out, signals)?;
    out.finish()
}
