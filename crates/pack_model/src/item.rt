//! Items: what is put into frames whole.
use crate::lists::Labels;

/// One free signal, or all signals of one I-PDU: what a frame takes whole.
#[derive(Debug, Drop)]
pub struct Item {
    /// The sender's number, by first place in the signal list.
    pub sender: u32,
    /// The I-PDU's id, or none for a free signal.
    pub pdu: Option<u32>,
    /// The places of its signals in the signal list, in list order.
    pub members: Labels,
    /// The bits of its signals together.
    pub bits: u32,
}
