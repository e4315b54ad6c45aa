//! The outside of canpack: a folder of files, a sink for lines and a gate for workers, each with a meaning
//! that contracts cite, implementations in memory and real ones, and the reading of a whole file.
#![tactic(auto)]

mod failures;
mod held;
mod mem_folder;
mod mem_sink;
mod null_sink;
mod outside;
mod reading;
mod real;
mod steady_folder;

pub use mem_folder::MemFolder;
pub use mem_sink::MemSink;
pub use null_sink::NullSink;
pub use outside::{Failed, Folder, Gate, OpenGate, Sink};
pub use pack_model::Memory;
pub use reading::{ReadWhole, read_whole};
pub use real::{RealFolder, RealOut};
pub use steady_folder::SteadyFolder;

#[cfg(test)]
mod tests;
