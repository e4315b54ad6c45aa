use crate::Sums;
use container_pdu::Header;

/// The sums of an I-PDU of 12 bits with a short id, every 10 ms.
const SHORT: Sums = Sums {
    items: 1,
    pdus: 1,
    short_ids: true,
    bits: 12,
    bytes: 2,
    weight: 16,
    first_sender: 1,
    last_sender: 1,
    period_us: 10_000,
    deadline_us: 10_000,
    jitter_us: 0,
};

/// The sums of an I-PDU of 8 bits with a long id, every 20 ms.
const LONG: Sums = Sums {
    items: 1,
    pdus: 1,
    short_ids: false,
    bits: 8,
    bytes: 1,
    weight: 8,
    first_sender: 1,
    last_sender: 1,
    period_us: 20_000,
    deadline_us: 5_000,
    jitter_us: 100,
};

/// Two headers of 8 bytes and 3 bytes of parts are 19 bytes, in a frame of 20.
#[test]
fn one_long_id_makes_both_headers_long(rt: HostRuntime) {
    let both = SHORT.join(LONG);
    assert_eq!(rt; both.header(), Header::Long);
    assert_eq!(rt; both.frame_bytes(), 19);
    assert_eq!(rt; both.size(), Some(20));
    assert_eq!(rt; both.weight, 24);
    assert_eq!(rt;
        (both.period_us, both.deadline_us, both.jitter_us),
        (10_000, 5_000, 100)
    );
    assert!(rt; both.stands());
    assert_eq!(rt; Sums::none().header(), Header::NoHeader);
}
