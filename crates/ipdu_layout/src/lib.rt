//! Bit positions of little-endian signals in an I-PDU, as AUTOSAR COM counts them: position
//! `8 * byte + bit`, bit 0 being the least significant of its byte. Nothing here takes memory.
//!
//! The one contract that upper crates use is that of [`places_stand`]: it is true exactly where all
//! places lie inside and no two share a position.
#![tactic(auto)]

mod marks;
mod place;
mod sequence;

pub use marks::mark;
pub use place::{Place, places_stand};
pub use sequence::{MAX_BITS, MAX_SIGNALS, lay};

#[cfg(test)]
mod tests {
    use super::*;

    #[test]
    fn signals_one_after_another(rt: HostRuntime) {
        let mut starts = [0; 3];
        assert_eq!(rt; lay(&[8, 3, 12], &mut starts), 3);
        assert_eq!(rt; starts, [0, 8, 11]);
    }

    #[test]
    fn places_beside_each_other(rt: HostRuntime) {
        let cases = [
            ([(0, 8), (8, 8)], 2, true),
            ([(8, 8), (0, 8)], 2, true),
            ([(0, 9), (8, 8)], 2, false),
            ([(0, 8), (8, 9)], 2, false),
            ([(0, 8), (8, 0)], 2, false),
            ([(0, 1), (511, 1)], 64, true),
            ([(0, 1), (512, 1)], 64, false),
            ([(0, 1), (519, 1)], 65, true),
            ([(512, 8), (512, 1)], 65, false),
            ([(u32::MAX, 1), (0, u32::MAX)], 1 << 29, true),
            ([(u32::MAX, 2), (0, 1)], 1 << 29, false),
        ];
        for (pairs, bytes, stand) in cases {
            let places = pairs.map(|(start, bits)| Place { start, bits });
            assert_eq!(rt; places_stand(&places, bytes), stand);
        }
    }
}
