//! How long a frame lasts at most.
ghost use Rattle.std.specs.Prelude.{◌≡◌, ◌≤◌};
ghost use Rattle.fd_length.specs.Size.{IsSize};
ghost use Rattle.frame_ticks.specs.Worst.{crc_bits_of, worst_ticks_of};
ghost use Rattle.frame_ticks.specs.declared.worst.TheConstants.{MAX_TICKS};
ghost use Rattle.pack_model.specs.Network.{NetworkStands};

use pack_model::Network;

/// The greatest length of any frame on any network, in ticks.
pub const MAX_TICKS: u64 = 7_110_000;

/// The greatest length, in ticks, of a frame with `size` data bytes, inserted bits counted.
pub fn worst_ticks(network: &Network, size: u32) -> u64
    requires stands { NetworkStands network.now }
    requires listed { IsSize size }
    ensures value { result ≡ worst_ticks_of network.now size }
    ensures in_range { result ≤ MAX_TICKS }
{
    let data_bits = 6 + 10 * u64::from(size) + crc_bits(size as usize);
    33 * u64::from(network.nominal_ticks) + data_bits * u64::from(network.data_ticks)
}

/// The bits of the CRC field of a frame with `size` data bytes, without its delimiter: a stuff count
/// of 4 bits, a CRC of 17 or 21 bits, and 6 or 7 fixed stuff bits.
pub fn crc_bits(size: usize) -> u64
    ensures { result ≡ crc_bits_of size }
{
    if size <= 16 { 27 } else { 32 }
}
