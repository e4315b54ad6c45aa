//! What the rows of one frame share.
ghost use Rattle.std.specs.Prelude.{◌≡◌, IfOk, List};
ghost use Rattle.pack_model.specs.declared.item.Item.{Item};
ghost use Rattle.pack_model.specs.Network.{NetworkStands};
ghost use Rattle.pack_model.specs.Problem.{Parts};
ghost use Rattle.class_frame.specs.Sums.{AreSums, IsSmall};
ghost use Rattle.matrix_layout.specs.ClassItems.{figures};
ghost use Rattle.matrix_layout.specs.LaidOut.{figures_of, row_with};

use class_frame::Sums;
use container_pdu::Header;
use frame_ticks::worst_ticks;
use matrix_rows::MatrixRow;
use pack_model::{Memory, Network, Signal};

/// The figures of a frame that stand in each of its rows.
#[derive(Clone, Copy)]
pub struct Frame {
    /// The frame's identifier, 0 to 2047.
    pub id: u32,
    /// The frame's data length in bytes, one of ISO 11898-1's list.
    pub size: u32,
    /// The frame's greatest length in ticks.
    pub ticks: u64,
    /// The kind of header that the frame's I-PDUs have.
    pub header: Header,
}

/// The frame of an identifier that has items of these sums, with the least data length for their bytes.
pub fn frame_of(network: &Network, id: u32, sums: Sums) -> Frame
    requires network { NetworkStands network.now }
    requires small { IsSmall sums }
    ensures { (problem : Parts) (items : List Item) → AreSums problem items sums
        → figures result ≡ figures_of network.now id items }
{
    let size = sums.size().unwrap_or(0);
    Frame {
        id,
        size,
        ticks: worst_ticks(network, size),
        header: sums.header(),
    }
}

impl Frame {
    /// The row of a signal that begins at position `start`, in a part that begins at byte `at`.
    pub fn row_of(&self, at: u32, start: u32, signal: &Signal) -> Result<MatrixRow, Memory>
        ensures { IfOk result (λ row. row ≡ row_with (figures self.now) at start signal.now) }
    {
        Ok(MatrixRow {
            id: self.id,
            sender: signal.sender.clone()?,
            size: self.size,
            ticks: self.ticks,
            header: self.header,
            pdu: signal.pdu,
            at,
            signal: signal.name.clone()?,
            start,
            bits: signal.bits,
        })
    }
}
