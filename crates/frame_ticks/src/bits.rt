//! The bits of a frame as the standard lays them out.
ghost use Rattle.std.specs.Prelude.{◌≡◌, ◌==◌, ◌<◌, ◌≤◌, ◌++◌, OnOk, IfOk, length};
ghost use Rattle.std.specs.Int.{bit_at};
ghost use Rattle.fd_length.specs.Size.{IsSize};
ghost use Rattle.frame_ticks.specs.Bits.{IsFrame, bits_of, number_bits, payload_bits};

use fd_length::dlc_of;
use pack_model::Memory;
use std::alloc::Global;

/// RRS, IDE, FDF, res and BRS of a base frame that switches its bit rate.
pub const CONTROL_BITS: [bool; 5] = [false, false, true, false, true];

/// How many identifiers base frames have: they are below this number.
pub const IDENTIFIERS: usize = 2048;

/// How many bits an identifier has.
pub const ID_BITS: u32 = 11;

/// How many bits a data length code has.
pub const DLC_BITS: u32 = 4;

/// The bits of a frame with this identifier, error state indicator and payload, from the start of
/// frame to the last data bit, true for recessive, without inserted ones.
pub fn frame_bits(alloc: Global, id: u32, esi: bool, payload: &[u8]) -> Result<Vec<bool>, Memory>
    requires id_high { id < IDENTIFIERS }
    requires listed { IsSize (length payload.now) }
    ensures bits { IfOk result (λ bits. bits.items ≡ bits_of id esi payload.now) }
    ensures frame { IfOk result (λ bits. IsFrame bits.items) }
{
    let mut bits = Vec::with_capacity(alloc, 22 + 8 * payload.len())?;
    bits.push(false)?;
    push_number(&mut bits, id, ID_BITS)?;
    bits.extend_from_slice(&CONTROL_BITS)?;
    bits.push(esi)?;
    push_number(&mut bits, u32::from(dlc_of(payload.len() as u32)), DLC_BITS)?;
    push_payload(&mut bits, payload)?;
    Ok(bits)
}

/// Appends the bits of each byte.
fn push_payload(bits: &mut Vec<bool>, payload: &[u8]) -> Result<(), Memory>
    ensures { OnOk result (bits.new.items ≡ bits.old.items ++ payload_bits payload.now) }
{
    for byte in payload {
        push_number(bits, u32::from(*byte), 8)?;
    }
    Ok(())
}

/// Appends the lowest `count` bits of a number, the most significant first.
fn push_number(bits: &mut Vec<bool>, number: u32, count: u32) -> Result<(), Memory>
    requires { count ≤ 32 }
    ensures { OnOk result (bits.new.items ≡ bits.old.items ++ number_bits count number) }
{
    for place in (0..count).rev() {
        bits.push(is_bit_set(number, place))?;
    }
    Ok(())
}

/// Whether the bit at a place of a number is 1, where place 0 is the least significant.
pub fn is_bit_set(number: u32, place: u32) -> bool
    requires { place < 32 }
    ensures { result ≡ (bit_at number place == 1) }
{
    number >> place & 1 == 1
}
