// I-PDUs alone in a frame, together in a container, and containers that break one rule each.
use crate::runs::{CERT, NETWORK, expect_check};
use std::alloc::{AllocError, Global};
use std::test::Fail;

const SIGNALS_HEADER: &[u8] = b"signal,sender,pdu,bits,period_us,deadline_us,jitter_us\n";

const MATRIX_HEADER: &[u8] = b"id,sender,size,ticks,header,pdu,at,signal,start,bits\n";

/// Two I-PDUs of one byte.
const TWO_PDUS: &[u8] = b"S1,ECU1,1,8,10000,10000,0\nS2,ECU1,2,8,10000,10000,0\n";

/// Signals and rows of a matrix for them, with the status and what is said.
const CONTAINERS: [(&[u8], &[u8], u8, &[u8]); 11] = [
    // Two short headers of 4 bytes and two bytes: 10 bytes, so a frame of 12.
    (
        TWO_PDUS,
        b"256,ECU1,12,11400,short,1,4,S1,32,8\n256,ECU1,12,11400,short,2,9,S2,72,8\n",
        0,
        b"placed\n",
    ),
    // The second I-PDU stands first.
    (
        TWO_PDUS,
        b"256,ECU1,12,11400,short,1,9,S1,72,8\n256,ECU1,12,11400,short,2,4,S2,32,8\n",
        0,
        b"placed\n",
    ),
    // An identifier of 25 bits: two long headers of 8 bytes, 18 bytes, so a frame of 20.
    (
        b"S1,ECU1,16777216,8,10000,10000,0\nS2,ECU1,2,8,10000,10000,0\n",
        b"256,ECU1,20,14800,long,16777216,8,S1,64,8\n256,ECU1,20,14800,long,2,17,S2,136,8\n",
        0,
        b"placed\n",
    ),
    // Two signals in one I-PDU, which is alone in its frame.
    (
        b"S1,ECU1,1,8,10000,10000,0\nS2,ECU1,1,8,10000,10000,0\n",
        b"256,ECU1,2,7400,none,1,0,S1,0,8\n256,ECU1,2,7400,none,1,0,S2,8,8\n",
        0,
        b"placed\n",
    ),
    // A signal that ends behind its part.
    (
        TWO_PDUS,
        b"256,ECU1,12,11400,short,1,4,S1,33,8\n256,ECU1,12,11400,short,2,9,S2,72,8\n",
        5,
        b"rejected matrix\n",
    ),
    // A part that begins in its header, and one behind a gap.
    (
        TWO_PDUS,
        b"256,ECU1,12,11400,short,1,3,S1,24,8\n256,ECU1,12,11400,short,2,9,S2,72,8\n",
        5,
        b"rejected matrix\n",
    ),
    (
        TWO_PDUS,
        b"256,ECU1,12,11400,short,1,4,S1,32,8\n256,ECU1,12,11400,short,2,10,S2,80,8\n",
        5,
        b"rejected matrix\n",
    ),
    // Headers longer than they must be, and a frame longer than it must be.
    (
        TWO_PDUS,
        b"256,ECU1,12,11400,long,1,4,S1,32,8\n256,ECU1,12,11400,long,2,9,S2,72,8\n",
        5,
        b"rejected matrix\n",
    ),
    (
        TWO_PDUS,
        b"256,ECU1,16,13000,short,1,4,S1,32,8\n256,ECU1,16,13000,short,2,9,S2,72,8\n",
        5,
        b"rejected matrix\n",
    ),
    // One I-PDU in two frames, and an I-PDU beside a free signal.
    (
        b"S1,ECU1,1,8,10000,10000,0\nS2,ECU1,1,8,10000,10000,0\n",
        b"256,ECU1,2,7400,none,1,0,S1,0,8\n257,ECU1,2,7400,none,1,0,S2,8,8\n",
        5,
        b"rejected matrix\n",
    ),
    (
        b"S1,ECU1,1,8,10000,10000,0\nS2,ECU1,,8,10000,10000,0\n",
        b"256,ECU1,2,7400,none,1,0,S1,0,8\n256,ECU1,2,7400,none,,0,S2,8,8\n",
        5,
        b"rejected matrix\n",
    ),
];

fn text_of(alloc: Global, header: &[u8], rows: &[u8]) -> Result<Vec<u8>, AllocError> {
    let mut text = header.to_vec(alloc)?;
    text.extend_from_slice(rows)?;
    Ok(text)
}

#[test]
fn containers(rt: HostRuntime) -> Result<(), Fail> {
    for (number, (signals, rows, status, said)) in CONTAINERS.iter().enumerate() {
        let signals = text_of(rt.alloc(), SIGNALS_HEADER, signals)?;
        let matrix = text_of(rt.alloc(), MATRIX_HEADER, rows)?;
        let texts = [NETWORK, &signals, &matrix, CERT];
        expect_check(&rt, number, &texts, *status, said)?;
    }
    Ok(())
}
