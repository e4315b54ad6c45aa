//! The data lengths of a CAN FD frame and their four-bit codes, as ISO 11898-1 lists them.
//!
//! A frame carries 0 to 8, 12, 16, 20, 24, 32, 48 or 64 data bytes. Nothing here takes memory.
#![tactic(auto)]

ghost use Rattle.std.specs.Prelude.{◌≡◌, ◌<◌, ◌≤◌, ◌↔◌, IsNone, IfSome};
ghost use Rattle.fd_length.specs.Size.{IsSize, IsFdSize, fd_size_of, size_of_code, code_of_size};

/// The greatest data length of a frame, in bytes.
pub const MAX_SIZE: u32 = 64;

/// The least data length of a frame, in bytes, that holds `bytes` bytes; None above 64 bytes.
pub fn fd_size(bytes: u32) -> Option<u32>
    ensures value { result ≡ fd_size_of bytes }
    ensures least { IfSome result (IsFdSize bytes) }
    ensures none { IsNone result ↔ (64 < bytes) }
{
    match bytes {
        0..=8 => Some(bytes),
        9..=12 => Some(12),
        13..=16 => Some(16),
        17..=20 => Some(20),
        21..=24 => Some(24),
        25..=32 => Some(32),
        33..=48 => Some(48),
        49..=MAX_SIZE => Some(64),
        _ => None,
    }
}

/// The data length code, 0 to 15, of a data length of `size` bytes.
pub fn dlc_of(size: u32) -> u8
    requires { IsSize size }
    ensures value { result ≡ code_of_size size }
    ensures in_range { result ≤ 15 }
    ensures back { size_of_code result ≡ size }
{
    match size {
        0..=8 => size as u8,
        12 => 9,
        16 => 10,
        20 => 11,
        24 => 12,
        32 => 13,
        48 => 14,
        64 => 15,
        _ => unreachable!(),
    }
}

/// The data length, in bytes, that a data length code, 0 to 15, stands for.
pub fn size_of_dlc(code: u8) -> u32
    requires { code ≤ 15 }
    ensures value { result ≡ size_of_code code }
    ensures listed { IsSize result }
    ensures back { code_of_size result ≡ code }
{
    match code {
        0..=8 => u32::from(code),
        9 => 12,
        10 => 16,
        11 => 20,
        12 => 24,
        13 => 32,
        14 => 48,
        15 => 64,
        _ => unreachable!(),
    }
}

#[cfg(test)]
mod tests {
    use super::*;

    #[test]
    fn sizes_and_codes(rt: HostRuntime) {
        let sizes = [
            (0, Some(0)),
            (8, Some(8)),
            (9, Some(12)),
            (33, Some(48)),
            (49, Some(64)),
            (64, Some(64)),
            (65, None),
        ];
        for (bytes, size) in sizes {
            assert_eq!(rt; fd_size(bytes), size);
        }
        assert_eq!(rt; dlc_of(8), 8);
        assert_eq!(rt; dlc_of(64), 15);
        assert_eq!(rt; size_of_dlc(9), 12);
    }
}
