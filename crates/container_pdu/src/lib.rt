//! Container PDUs with short and long headers, as AUTOSAR IpduM has them.
//!
//! The one contract that upper crates use is that [`read_container`] gives exactly the parts of the bytes, or
//! the first fault, and that what [`write_container`] wrote is read back.
#![tactic(auto)]

mod fault;
mod header;
mod part;
mod reading;
mod writing;

pub use fault::ContainerFault;
pub use header::{Header, container_bytes, header_kind};
pub use part::Part;
pub use reading::read_container;
pub use writing::write_container;

#[cfg(test)]
mod tests;
