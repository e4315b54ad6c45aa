//! What all readers and writers of CSV texts stand on: the records of a text, its header, columns in order,
//! decimals, and the text of records.
//!
//! The one contract that upper crates use is that of [`Rows::next`]: it takes the first of the records that
//! are left.
#![tactic(auto)]

mod columns;
mod decimal;
mod rows;
mod writing;

pub use columns::{
    ColumnFault, count_at, field_at, has_fields, name_at, number_at, optional_at, wide_number_at,
};
pub use decimal::decimal_in;
pub use rows::Rows;
pub use writing::RowsWriter;

#[cfg(test)]
mod tests;
