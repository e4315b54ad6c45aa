//! The records of a text.
ghost use Rattle.std.specs.Prelude.{◌≡◌, ◌≤◌, ◌+◌, length, map, drop, IfOk, OnErr, OnOk, [], Some, true, false, not};
ghost use Rattle.csv.specs.Records.{fields_of};
ghost use Rattle.csv_table.specs.Rows.{rows_of, Takes};
ghost use Rattle.csv_table.specs.Columns.{begins_with};
ghost use Rattle.csv_table.specs.Inside.{rows_left, IsOpen};

use crate::columns::has_fields;
use csv::{ByteRecord, ErrorKind, Reader, ReaderBuilder};
use pack_model::Memory;
use std::alloc::Global;
use std::marker::Model;

/// The records of a text that are left, in order.
#[derive(Drop)]
pub struct Rows<'a> {
    reader: Reader<&'a [u8]>,
    ended: bool,
}

impl<'a> Model for Rows<'a> {
    ghost use Rattle.std.specs.Prelude.{◌≡◌, List, ℕ, Some, false};
    ghost use Rattle.csv_table.specs.Inside.{rows_left, IsOpen};

    ghost Value = { List (List (List ℕ)) };

    ghost view = { λ a. rows_left (λ s. Some s.now) a.ended a.reader };

    ghost invariant = { λ a. a.ended ≡ false → IsOpen (λ s. Some s.now) a.reader };
}

// Takes the next record of a reader between two records.
fn take(reader: &mut Reader<&[u8]>, row: &mut ByteRecord) -> Result<bool, Memory>
    requires { IsOpen (λ s. Some s.now) reader.old }
    ensures open { IfOk result (λ found. found ≡ true → IsOpen (λ s. Some s.now) reader.new) }
    ensures takes { IfOk result (λ found.
        Takes (rows_left (λ s. Some s.now) false reader.old)
        (rows_left (λ s. Some s.now) (not found) reader.new) found (fields_of row.new)) }
{
    match reader.read_byte_record(row) {
        Ok(found) => Ok(found),
        Err(e) => match e.into_kind() {
            ErrorKind::OutOfMemory | ErrorKind::Io(_) => Err(Memory),
            _ => unreachable!(),
        },
    }
}

impl<'a> Rows<'a> {
    /// The records of a text of CSV, a byte order mark at its front passed over.
    pub fn of_text(alloc: Global, text: &'a [u8]) -> Rows<'a>
        ensures rows { result ≡ rows_of text.now }
        ensures few { length result ≤ length text.now + 1 }
    {
        Rows {
            reader: ReaderBuilder::new()
                .has_headers(false)
                .flexible(true)
                .from_reader(alloc, text),
            ended: false,
        }
    }

    /// Takes the next record into `row`, if there is one. After an `Err` no record is left.
    pub fn next(&mut self, row: &mut ByteRecord) -> Result<bool, Memory>
        ensures ok { IfOk result (λ found. Takes self.old self.new found (fields_of row.new)) }
        ensures err { OnErr result (self.new ≡ []) }
    {
        if !self.ended {
            self.ended = true;
            self.ended = !take(&mut self.reader, row)?;
        }
        Ok(!self.ended)
    }

    /// Takes the next record into `row`, and says whether there is one and it has exactly these fields.
    pub fn next_is(&mut self, row: &mut ByteRecord, fields: &[&[u8]]) -> Result<bool, Memory>
        ensures is { IfOk result (λ is. is ≡ begins_with (map (λ f. f.now) fields.now) self.old) }
        ensures rest { OnOk result (self.new ≡ drop 1 self.old) }
    {
        let found = self.next(row)?;
        Ok(found && has_fields(row, fields))
    }
}
