//! How long a frame is, by the bytes of its items.
ghost use Rattle.std.specs.Prelude.{ℕ, ◌≡◌, ◌≤◌, ◌<◌, length, slice_index_or};
ghost use Rattle.pack_model.specs.Network.{NetworkStands};
ghost use Rattle.grouping_tree.specs.Grouped.{IsFrameLength, lengths_room};
ghost use Rattle.grouping_tree.specs.declared.frame_length.FrameLength.{FrameLength};

use fd_length::fd_size;
use frame_ticks::worst_ticks;
use pack_model::Network;

/// How many numbers of bytes a frame's items can have: 0 to 64.
pub(crate) const LENGTHS: u32 = 65;

/// How long a frame is.
#[derive(Clone, Copy, Debug, PartialEq, Eq)]
pub struct FrameLength {
    /// Its data length, in bytes.
    pub size: u32,
    /// The greatest time that it takes, in ticks.
    pub ticks: u64,
}

impl FrameLength {
    /// Of no data.
    pub(crate) fn none() -> FrameLength {
        FrameLength { size: 0, ticks: 0 }
    }

    /// Of items of so many bytes.
    pub(crate) fn of(network: &Network, bytes: u32) -> FrameLength
        requires stands { NetworkStands network.now }
        ensures { IsFrameLength network.now bytes result }
    {
        let size = fd_size(bytes).unwrap_or(0);
        FrameLength {
            size,
            ticks: worst_ticks(network, size),
        }
    }
}

/// Writes the length of the frame of items of each number of bytes.
pub(crate) fn write_lengths(lengths: &mut Vec<FrameLength>, network: &Network)
    requires stands { NetworkStands network.now }
    requires room { length lengths.old.items ≡ lengths_room }
    ensures room { length lengths.new.items ≡ lengths_room }
    ensures each { (bytes : ℕ) (d : FrameLength) → bytes < lengths_room
        → IsFrameLength network.now bytes (slice_index_or lengths.new.items bytes d) }
{
    for bytes in 0..LENGTHS {
        lengths[bytes as usize] = FrameLength::of(network, bytes);
    }
}
