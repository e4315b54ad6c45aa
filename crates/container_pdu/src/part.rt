//! One PDU in a container.
use pack_model::Payload;

/// A part of a container: a PDU's id and its bytes.
#[derive(Debug, Drop)]
pub struct Part {
    /// The id of the header, which no other part has and which isn't 0.
    pub id: u32,
    /// The bytes of the PDU, in the order sent.
    pub bytes: Payload,
}
