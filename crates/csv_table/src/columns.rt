//! The columns of a record.
ghost use Rattle.std.specs.Prelude.{◌≡◌, ◌-◌, ◌==◌, ◌≤◌, ℕ, List, [], length, map, slice_index_or, IfOk};
ghost use Rattle.std.specs.Str.{bytes_eq};
ghost use Rattle.std.specs.Cmp.Lexicographic.{pointwise};
ghost use Rattle.csv.specs.Records.{fields_of};
ghost use Rattle.csv_table.specs.Columns.{is_row, field_in, count_in, name_in, number_in, optional_in};
ghost use Rattle.csv_table.specs.Gives.{column_of};
ghost use Rattle.pack_model.specs.Gives.{Gives};

use crate::decimal::decimal_in;
use csv::ByteRecord;
use pack_model::{Name, NameFault};
use std::alloc::Global;
use thiserror::Error;

/// Why a record isn't read.
#[derive(Clone, Copy, Debug, Drop, PartialEq, Eq, Error)]
pub enum ColumnFault {
    /// The column breaks its rule. Columns are counted from 1, and column 0 stands for the count of fields.
    #[error("column {0} breaks its rule")]
    Column(u8),
    /// Memory ran out.
    #[error("out of memory")]
    Memory,
}

fn place_at(row: &ByteRecord, place: usize) -> &[u8]
    ensures { result.now ≡ slice_index_or (fields_of row.now) place [] }
{
    row.get(place).unwrap_or(&[])
}

/// Whether the record has exactly these fields.
pub fn has_fields(row: &ByteRecord, names: &[&[u8]]) -> bool
    ensures { result ≡ is_row (fields_of row.now) (map (λ s. s.now) names.now) }
{
    if row.len() != names.len() {
        return false;
    }
    for (place, name) in names.iter().enumerate() {
        if place_at(row, place) != *name {
            return false;
        }
    }
    true
}

/// The field in a column from 1 on, or no bytes where the record has no such column.
pub fn field_at(row: &ByteRecord, column: u8) -> &[u8]
    ensures { result.now ≡ field_in column (fields_of row.now) }
{
    place_at(row, usize::from(column.saturating_sub(1)))
}

/// The count of fields, which is to be `count`.
pub fn count_at(row: &ByteRecord, count: usize) -> Result<usize, ColumnFault>
    ensures { Gives (λ x. x) column_of result (count_in count (fields_of row.now)) }
{
    if row.len() != count {
        return Err(ColumnFault::Column(0));
    }
    Ok(count)
}

/// A column with a name.
pub fn name_at(alloc: Global, row: &ByteRecord, column: u8) -> Result<Name, ColumnFault>
    ensures { Gives (λ x. x) column_of result (name_in column (fields_of row.now)) }
{
    match Name::new(alloc, field_at(row, column)) {
        Ok(name) => Ok(name),
        Err(NameFault::BadName) => Err(ColumnFault::Column(column)),
        Err(NameFault::Memory) => Err(ColumnFault::Memory),
    }
}

/// A column with a decimal from `low` to `high`.
pub fn wide_number_at(row: &ByteRecord, column: u8, low: u64, high: u64) -> Result<u64, ColumnFault>
    ensures exact { Gives (λ x. x) column_of result (number_in low high column (fields_of row.now)) }
    ensures in_range { IfOk result (λ n. n ≤ high) }
{
    match decimal_in(field_at(row, column), low, high) {
        Some(number) => Ok(number),
        None => Err(ColumnFault::Column(column)),
    }
}

/// A column with a decimal from `low` to `high`.
pub fn number_at(row: &ByteRecord, column: u8, low: u32, high: u32) -> Result<u32, ColumnFault>
    ensures exact { Gives (λ x. x) column_of result (number_in low high column (fields_of row.now)) }
    ensures in_range { IfOk result (λ n. n ≤ high) }
{
    let number = wide_number_at(row, column, u64::from(low), u64::from(high))?;
    Ok(number as u32)
}

/// A column that is empty, or has a decimal from `low` to `high`.
pub fn optional_at(
    row: &ByteRecord,
    column: u8,
    low: u32,
    high: u32,
) -> Result<Option<u32>, ColumnFault>
    ensures { Gives (λ x. x) column_of result (optional_in low high column (fields_of row.now)) }
{
    if field_at(row, column).is_empty() {
        return Ok(None);
    }
    let number = number_at(row, column, low, high)?;
    Ok(Some(number))
}
