//! How long a frame lasts, by its bits.
ghost use Rattle.std.specs.Prelude.{◌≡◌, ◌<◌, ◌≤◌, length};
ghost use Rattle.fd_length.specs.Size.{IsSize};
ghost use Rattle.frame_ticks.specs.Bits.{IsFrame, bits_of};
ghost use Rattle.frame_ticks.specs.Ticks.{Lasts, size_of_bits, ticks_of, ticks_sent};
ghost use Rattle.frame_ticks.specs.Worst.{worst_ticks_of};

use crate::bits::{CONTROL_BITS, DLC_BITS, ID_BITS, IDENTIFIERS};
use crate::line::Line;
use crate::worst::crc_bits;
use fd_length::dlc_of;
use pack_model::Network;

/// How many bits a frame has from the start of frame to BRS, without inserted ones.
const BITS_TO_BRS: usize = 17;

/// How many bits a frame has from the start of frame to the data, without inserted ones.
const BITS_TO_DATA: usize = 22;

/// How many bits a frame has from the CRC delimiter to the end of the intermission: CRC delimiter,
/// ACK slot, ACK delimiter, 7 bits of end of frame and 3 of intermission.
const END_BITS: u64 = 13;

/// The length, in ticks, of the whole frame with these bits as [`crate::frame_bits`] gives them,
/// inserted bits counted.
pub fn stuffed_ticks(network: &Network, bits: &[bool]) -> u64
    requires { IsFrame bits.now }
    ensures value { result ≡ ticks_of network.now bits.now }
    ensures lasts { Lasts network.now bits.now result }
    ensures at_most { result ≤ worst_ticks_of network.now (size_of_bits bits.now) }
{
    let size = (bits.len() - BITS_TO_DATA) / 8;
    let (to_brs, after_brs) = bits.split_at(BITS_TO_BRS);
    let mut line = Line::idle();
    line.send_all(to_brs);
    let nominal = line.sent;
    line.send_all(after_brs);
    ticks(network, size, nominal, line.sent - nominal)
}

/// The length, in ticks, of the whole frame with this identifier, error state indicator and payload,
/// inserted bits counted.
pub fn real_ticks(network: &Network, id: u32, esi: bool, payload: &[u8]) -> u64
    requires id_high { id < IDENTIFIERS }
    requires listed { IsSize (length payload.now) }
    ensures value { result ≡ ticks_of network.now (bits_of id esi payload.now) }
    ensures lasts { Lasts network.now (bits_of id esi payload.now) result }
    ensures at_most { result ≤ worst_ticks_of network.now (length payload.now) }
{
    let mut line = Line::idle();
    line.send(false);
    line.send_number(id, ID_BITS);
    line.send_all(&CONTROL_BITS);
    let nominal = line.sent;
    line.send(esi);
    line.send_number(u32::from(dlc_of(payload.len() as u32)), DLC_BITS);
    line.send_payload(payload);
    ticks(network, payload.len(), nominal, line.sent - nominal)
}

/// The length, in ticks, of a frame of `size` data bytes with so many bits sent up to and with BRS,
/// and so many from there to the last data bit.
fn ticks(network: &Network, size: usize, nominal: u64, others: u64) -> u64
    requires few_nominal { nominal ≤ 1000 }
    requires few_others { others ≤ 2000 }
    ensures { result ≡ ticks_sent network.now size nominal others }
{
    let nominal_bits = nominal + END_BITS;
    let data_bits = others + crc_bits(size);
    nominal_bits * u64::from(network.nominal_ticks) + data_bits * u64::from(network.data_ticks)
}
