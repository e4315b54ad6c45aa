//! The text of records.
ghost use Rattle.std.specs.Prelude.{◌≡◌, ◌<◌, ◌^◌, ◌++◌, ◌∷◌, [], map, decimal, false, Some, OnOk, IfOk, IfSome};
ghost use Rattle.csv.specs.Records.{fields_of, partial_of};
ghost use Rattle.csv.specs.Writing.{default_writer, row_text};
ghost use Rattle.csv_table.specs.Writing.{IsFresh, optional_text, text_in};

use csv::{ByteRecord, Writer, WriterBuilder};
use itoa::Buffer;
use pack_model::Memory;
use std::alloc::Global;
use std::marker::Model;

/// A text of CSV in memory that grows by a field at a time, each record as `csv` writes it and ended by LF.
/// After an `Err` each further call is an `Err`.
#[derive(Drop)]
pub struct RowsWriter {
    writer: Writer<Vec<u8>>,
    row: ByteRecord,
    failed: bool,
}

impl Model for RowsWriter {
    ghost use Rattle.std.specs.Prelude.{◌≡◌, [], List, ℕ, Some, false};
    ghost use Rattle.csv.specs.Records.{fields_of, partial_of};
    ghost use Rattle.csv_table.specs.Writing.{IsFresh, Written, text_in};

    ghost Value = { Written };

    ghost view = { λ a. record {
      text = text_in (λ v. Some v.items) a.failed a.writer;
      row = fields_of a.row;
    } };

    ghost invariant = { λ a. a.failed ≡ false → IsFresh a.writer × (partial_of a.row ≡ []) };
}

// Adds a record.
fn put(writer: &mut Writer<Vec<u8>>, row: &ByteRecord) -> Result<(), Memory>
    requires { IsFresh writer.old }
    ensures fresh { OnOk result (IsFresh writer.new) }
    ensures text { OnOk result (text_in (λ v. Some v.items) false writer.new
        ≡ text_in (λ v. Some v.items) false writer.old ++ row_text default_writer (fields_of row.now)) }
{
    match writer.write_byte_record(row) {
        Ok(()) => Ok(()),
        Err(_) => Err(Memory),
    }
}

// The bytes that were written.
fn bytes_of(writer: Writer<Vec<u8>>) -> Result<Vec<u8>, Memory>
    requires { IsFresh writer }
    ensures { IfOk result (λ v. v.items ≡ text_in (λ v. Some v.items) false writer) }
{
    match writer.into_inner() {
        Ok(bytes) => Ok(bytes),
        Err(_) => Err(Memory),
    }
}

impl RowsWriter {
    /// A text without records.
    pub fn new(alloc: Global) -> RowsWriter
        ensures text { result.text ≡ [] }
        ensures row { result.row ≡ [] }
    {
        RowsWriter {
            writer: WriterBuilder::new().from_writer(Vec::new(alloc)),
            row: ByteRecord::new(alloc),
            failed: false,
        }
    }

    /// Adds a field to the record at hand.
    pub fn field(&mut self, field: &[u8]) -> Result<(), Memory>
        ensures text { OnOk result (self.new.text ≡ self.old.text) }
        ensures row { OnOk result (self.new.row ≡ self.old.row ++ field.now ∷ []) }
    {
        if self.failed {
            return Err(Memory);
        }
        self.failed = true;
        self.row.push_field(field)?;
        self.failed = false;
        Ok(())
    }

    /// Adds a field with a decimal.
    pub fn number(&mut self, number: u64) -> Result<(), Memory>
        ensures text { OnOk result (self.new.text ≡ self.old.text) }
        ensures row { OnOk result (self.new.row ≡ self.old.row ++ decimal number ∷ []) }
    {
        let mut digits = Buffer::new();
        self.field(digits.format(number).as_bytes())
    }

    /// Adds a field with a decimal, or an empty one.
    pub fn optional(&mut self, number: Option<u32>) -> Result<(), Memory>
        ensures text { OnOk result (self.new.text ≡ self.old.text) }
        ensures row { OnOk result (self.new.row ≡ self.old.row ++ optional_text number ∷ []) }
        // A number is below 2 ^ 32 by its type.
        ensures fits { IfSome number (λ n. n < 2 ^ 32) }
    {
        match number {
            None => self.field(b""),
            Some(number) => self.number(u64::from(number)),
        }
    }

    /// Ends the record at hand.
    pub fn end(&mut self) -> Result<(), Memory>
        ensures text { OnOk result (self.new.text ≡ self.old.text ++ row_text default_writer self.old.row) }
        ensures row { OnOk result (self.new.row ≡ []) }
    {
        if self.failed {
            return Err(Memory);
        }
        self.failed = true;
        put(&mut self.writer, &self.row)?;
        self.row.clear();
        self.failed = false;
        Ok(())
    }

    /// Adds a whole record, where none is at hand.
    pub fn row(&mut self, fields: &[&[u8]]) -> Result<(), Memory>
        requires { self.old.row ≡ [] }
        ensures text { OnOk result
            (self.new.text ≡ self.old.text ++ row_text default_writer (map (λ f. f.now) fields.now)) }
        ensures row { OnOk result (self.new.row ≡ []) }
    {
        for field in fields {
            self.field(field)?;
        }
        self.end()
    }

    /// The text of the records that were ended.
    pub fn finish(self) -> Result<Vec<u8>, Memory>
        ensures { IfOk result (λ v. v.items ≡ self.text) }
    {
        let RowsWriter { writer, failed, .. } = self;
        if failed {
            return Err(Memory);
        }
        bytes_of(writer)
    }
}
