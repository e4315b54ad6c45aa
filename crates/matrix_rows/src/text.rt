//! The text of a matrix.
ghost use Rattle.std.specs.Prelude.{◌≡◌, ◌+◌, ◌<◌, ◌^◌, ◌++◌, [], length, map, All, IfOk, OnOk, Ok};
ghost use Rattle.csv.specs.Records.{fields_of};
ghost use Rattle.csv.specs.Writing.{default_writer, row_text};
ghost use Rattle.csv_table.specs.Columns.{rows_from};
ghost use Rattle.csv_table.specs.Gives.{Gives, column_of};
ghost use Rattle.csv_table.specs.Writing.{rows_text};
ghost use Rattle.fd_length.specs.Size.{is_size};
ghost use Rattle.matrix_rows.specs.MatrixText.{MatrixText, ReadsBack, bad_row, header_in, header_text, matrix_of_text, matrix_refusal, matrix_text, row_fields, row_of, size_in};
ghost use Rattle.matrix_rows.specs.Row.{RowInRange};
ghost use Rattle.matrix_rows.specs.declared.text.MatrixFault.TheVariants as fault;

use crate::matrix::{Matrix, MatrixRow};
use container_pdu::Header;
use csv::ByteRecord;
use csv_table::{
    ColumnFault, Rows, RowsWriter, count_at, field_at, name_at, number_at, optional_at,
    wide_number_at,
};
use pack_model::Memory;
use std::alloc::{AllocFailed, Global};
use thiserror::Error;

const MATRIX_HEADER: [&[u8]; 10] = [
    b"id", b"sender", b"size", b"ticks", b"header", b"pdu", b"at", b"signal", b"start", b"bits",
];

/// Why a text has no matrix.
#[derive(Clone, Copy, Debug, Drop, PartialEq, Eq, Error)]
pub enum MatrixFault {
    /// The first record isn't the header.
    #[error("no header of a matrix")]
    BadHeader,
    /// The first row that fails, counted from 1 for the header, and its least column that breaks its rule,
    /// counted from 1, or 0 for the count of fields.
    #[error("column {column} of row {row} breaks its rule")]
    BadRow { row: u64, column: u8 },
    /// Memory ran out.
    #[error("out of memory")]
    Memory,
}

impl From<Memory> for MatrixFault {
    ghost use Rattle.std.specs.Prelude.{◌≡◌};
    ghost use Rattle.matrix_rows.specs.declared.text.MatrixFault.TheVariants as fault;

    ghost from_gives = { λ _ e. e ≡ fault.Memory };

    fn from(_e: Memory) -> MatrixFault {
        MatrixFault::Memory
    }
}

impl<T: Drop> From<AllocFailed<T>> for MatrixFault {
    ghost use Rattle.std.specs.Prelude.{◌≡◌};
    ghost use Rattle.matrix_rows.specs.declared.text.MatrixFault.TheVariants as fault;

    ghost from_gives = { λ _ e. e ≡ fault.Memory };

    fn from(_e: AllocFailed<T>) -> MatrixFault {
        MatrixFault::Memory
    }
}

fn is_listed(size: u32) -> bool
    ensures { result ≡ is_size size }
{
    matches!(size, 0..=8 | 12 | 16 | 20 | 24 | 32 | 48 | 64)
}

fn size_at(row: &ByteRecord, column: u8) -> Result<u32, ColumnFault>
    ensures { Gives (λ x. x) column_of result (size_in column (fields_of row.now)) }
{
    let size = number_at(row, column, 0, 64)?;
    if !is_listed(size) {
        return Err(ColumnFault::Column(column));
    }
    Ok(size)
}

fn header_at(row: &ByteRecord, column: u8) -> Result<Header, ColumnFault>
    ensures { Gives (λ x. x) column_of result (header_in column (fields_of row.now)) }
{
    let field = field_at(row, column);
    if field == b"none".as_slice() {
        Ok(Header::NoHeader)
    } else if field == b"short".as_slice() {
        Ok(Header::Short)
    } else if field == b"long".as_slice() {
        Ok(Header::Long)
    } else {
        Err(ColumnFault::Column(column))
    }
}

fn read_row(alloc: Global, row: &ByteRecord) -> Result<MatrixRow, ColumnFault>
    ensures { Gives (λ x. x) column_of result (row_of (fields_of row.now)) }
{
    count_at(row, 10)?;
    Ok(MatrixRow {
        id: number_at(row, 1, 0, 2047)?,
        sender: name_at(alloc, row, 2)?,
        size: size_at(row, 3)?,
        ticks: wide_number_at(row, 4, 0, 9_999_999_999)?,
        header: header_at(row, 5)?,
        pdu: optional_at(row, 6, 1, u32::MAX)?,
        at: number_at(row, 7, 0, 63)?,
        signal: name_at(alloc, row, 8)?,
        start: number_at(row, 9, 0, 511)?,
        bits: number_at(row, 10, 1, 512)?,
    })
}

// The rows of the records that are left, from row 2 on.
fn read_rows(
    alloc: Global,
    rows: &mut Rows<'_>,
    row: &mut ByteRecord,
) -> Result<Vec<MatrixRow>, MatrixFault>
    requires { length rows.old < 2 ^ 63 + 1 }
    ensures { Gives (λ v. v.items) matrix_refusal result (rows_from bad_row row_of 2 rows.old) }
{
    let mut matrix = Vec::new(alloc);
    for number in 2..u64::MAX {
        if !rows.next(row)? {
            return Ok(matrix);
        }
        match read_row(alloc, row) {
            Ok(read) => matrix.push(read)?,
            Err(ColumnFault::Column(column)) => {
                return Err(MatrixFault::BadRow {
                    row: number,
                    column,
                });
            }
            Err(ColumnFault::Memory) => return Err(MatrixFault::Memory),
        }
    }
    unreachable!()
}

fn read_all_rows(alloc: Global, text: &[u8]) -> Result<Vec<MatrixRow>, MatrixFault>
    ensures { Gives (λ v. v.items) matrix_refusal result (matrix_of_text text.now) }
{
    let mut rows = Rows::of_text(alloc, text);
    let mut row = ByteRecord::new(alloc);
    if !rows.next_is(&mut row, &MATRIX_HEADER)? {
        return Err(MatrixFault::BadHeader);
    }
    read_rows(alloc, &mut rows, &mut row)
}

fn read_rows_in_range(alloc: Global, text: &[u8]) -> Result<Vec<MatrixRow>, MatrixFault>
    ensures exact { Gives (λ v. v.items) matrix_refusal result (matrix_of_text text.now) }
    ensures in_range { IfOk result (λ v. All RowInRange v.items) }
{
    read_all_rows(alloc, text)
}

/// The matrix of a text in the format of MATRIX: CSV with the header
/// `id,sender,size,ticks,header,pdu,at,signal,start,bits`. A byte order mark at the front is passed over.
pub fn read_matrix(alloc: Global, text: &[u8]) -> Result<Matrix, MatrixFault>
    // The matrix of the text, or its first refusal.
    ensures exact { Gives (λ m. m) matrix_refusal result (matrix_of_text text.now) }
{
    let rows = read_rows_in_range(alloc, text)?;
    Ok(Matrix::of(rows))
}

fn word_of(header: Header) -> &'static [u8]
    ensures { result.now ≡ header_text header }
{
    match header {
        Header::NoHeader => b"none",
        Header::Short => b"short",
        Header::Long => b"long",
    }
}

// Adds a row.
fn write_row(out: &mut RowsWriter, row: &MatrixRow) -> Result<(), Memory>
    requires in_range { RowInRange row.now }
    requires at_start { out.old.row ≡ [] }
    ensures text { OnOk result (out.new.text ≡ out.old.text ++ row_text default_writer (row_fields row.now)) }
    ensures row { OnOk result (out.new.row ≡ []) }
    ensures reads_back { OnOk result (ReadsBack row.now) }
{
    out.number(u64::from(row.id))?;
    out.field(row.sender.bytes())?;
    out.number(u64::from(row.size))?;
    out.number(row.ticks)?;
    out.field(word_of(row.header))?;
    out.optional(row.pdu)?;
    out.number(u64::from(row.at))?;
    out.field(row.signal.bytes())?;
    out.number(u64::from(row.start))?;
    out.number(u64::from(row.bits))?;
    out.end()
}

// Adds rows.
fn write_rows(out: &mut RowsWriter, rows: &[MatrixRow]) -> Result<(), Memory>
    requires in_range { All RowInRange rows.now }
    requires at_start { out.old.row ≡ [] }
    ensures text { OnOk result (out.new.text ≡ out.old.text ++ rows_text (map row_fields rows.now)) }
    ensures reads_back { OnOk result (All ReadsBack rows.now) }
{
    for row in rows {
        write_row(out, row)?;
    }
    Ok(())
}

/// The text of a matrix in the format of MATRIX.
pub fn write_matrix(alloc: Global, matrix: &Matrix) -> Result<Vec<u8>, Memory>
    ensures exact { IfOk result (λ v. v.items ≡ matrix_text matrix.now) }
    // `read_matrix` of the text gives the same matrix.
    ensures reads_back { IfOk result (λ v. MatrixText v.items matrix.now) }
{
    let mut out = RowsWriter::new(alloc);
    out.row(&MATRIX_HEADER)?;
    write_rows(&mut out, matrix.rows())?;
    out.finish()
}

#[cfg(test)]
mod tests {
    use super::*;
    use std::test::Fail;

    const TWO_SIGNALS: &[u8] = b"id,sender,size,ticks,header,pdu,at,signal,start,bits\n\
        256,ECU1,2,7400,none,,0,S1,0,8\n256,ECU1,12,11400,short,2,9,S2,72,8\n";

    #[test]
    fn matrices(rt: HostRuntime) -> Result<(), Fail> {
        let matrix = read_matrix(rt.alloc(), TWO_SIGNALS)?;
        assert_eq!(rt; write_matrix(rt.alloc(), &matrix)?.as_slice(), TWO_SIGNALS);
        Ok(())
    }

    #[test]
    fn refusals(rt: HostRuntime) {
        for (text, fault) in [
            (b"".as_slice(), MatrixFault::BadHeader),
            (
                b"id,sender,size,ticks,header,pdu,at,signal,start,bits\n256,ECU1,9,7400,none,,0,S1,0,8".as_slice(),
                MatrixFault::BadRow { row: 2, column: 3 },
            ),
            (
                b"id,sender,size,ticks,header,pdu,at,signal,start,bits\n256,ECU1,2,7400,None,,0,S1,0,8".as_slice(),
                MatrixFault::BadRow { row: 2, column: 5 },
            ),
        ] {
            assert_eq!(rt; read_matrix(rt.alloc(), text).err(), Some(fault));
        }
    }
}
