use super::*;
use fd_length::fd_size;
use pack_model::Network;
use std::test::Fail;

/// A network of nominal bits of 2 us and data bits of half a microsecond.
const NETWORK: Network = Network {
    ticks_per_us: 80,
    nominal_ticks: 160,
    data_ticks: 40,
    first_id: 256,
};

#[test]
fn greatest_lengths(rt: HostRuntime) {
    let cases = [
        (1, 7000),
        (2, 7400),
        (3, 7800),
        (7, 9400),
        (8, 9800),
        (12, 11400),
        (16, 13000),
        (20, 14800),
        (64, 32400),
    ];
    for (size, ticks) in cases {
        assert_eq!(rt; fd_size(size), Some(size));
        assert_eq!(rt; worst_ticks(&NETWORK, size), ticks);
    }
}

#[test]
fn lengths_of_frames(rt: HostRuntime) -> Result<(), Fail> {
    let cases = [
        (0x078, 0x55, 6880),
        (0x000, 0x00, 6760),
        (0x100, 0x55, 6720),
        (0x101, 0x55, 6560),
    ];
    for (id, byte, ticks) in cases {
        assert!(rt; id < 2048);
        let bits = frame_bits(rt.alloc(), id, false, &[byte])?;
        assert_eq!(rt; stuffed_ticks(&NETWORK, &bits), ticks);
        assert_eq!(rt; real_ticks(&NETWORK, id, false, &[byte]), ticks);
    }
    Ok(())
}

#[test]
fn bits_in_the_order_sent(rt: HostRuntime) -> Result<(), Fail> {
    let bits = frame_bits(rt.alloc(), 0x078, false, &[0x55])?;
    assert_eq!(rt; bits.len(), 30);
    for (bit, digit) in bits.iter().zip(b"000001111000001010000101010101") {
        assert_eq!(rt; *bit, *digit == b'1');
    }
    Ok(())
}
