// Matrices that break one rule each, and matrices at the edge of what is placed.
use crate::runs::{CERT, NETWORK, SIGNALS, TWO_SIGNALS, expect_check};
use std::alloc::{AllocError, Global};
use std::test::Fail;

/// The rows of a matrix for the two signals, which break the rule that the comment names.
const BROKEN: [&[u8]; 12] = [
    // One row a signal: one is missing, one stands twice, one is of no signal, one says other bits.
    b"256,ECU1,1,7000,none,,0,S1,0,8\n",
    b"256,ECU1,2,7400,none,,0,S1,0,8\n256,ECU1,2,7400,none,,0,S1,0,8\n256,ECU1,2,7400,none,,0,S2,8,8\n",
    b"256,ECU1,3,7800,none,,0,S1,0,8\n256,ECU1,3,7800,none,,0,S2,8,8\n256,ECU1,3,7800,none,,0,S3,16,8\n",
    b"256,ECU1,2,7400,none,,0,S1,0,7\n256,ECU1,2,7400,none,,0,S2,8,8\n",
    // The rows of a frame agree: in the sender, the size, the ticks.
    b"256,ECU1,2,7400,none,,0,S1,0,8\n256,ECU2,2,7400,none,,0,S2,8,8\n",
    b"256,ECU1,2,7400,none,,0,S1,0,8\n256,ECU1,3,7400,none,,0,S2,8,8\n",
    b"256,ECU1,2,7400,none,,0,S1,0,8\n256,ECU1,2,7401,none,,0,S2,8,8\n",
    // A frame without headers has its one part at byte 0.
    b"256,ECU1,2,7400,none,,1,S1,8,8\n256,ECU1,2,7400,none,,1,S2,16,8\n",
    // The least size, and its ticks.
    b"256,ECU1,4,8200,none,,0,S1,0,8\n256,ECU1,4,8200,none,,0,S2,8,8\n",
    b"256,ECU1,2,7000,none,,0,S1,0,8\n256,ECU1,2,7000,none,,0,S2,8,8\n",
    // Inside its part, and apart from the others.
    b"256,ECU1,2,7400,none,,0,S1,0,8\n256,ECU1,2,7400,none,,0,S2,9,8\n",
    b"256,ECU1,2,7400,none,,0,S1,0,8\n256,ECU1,2,7400,none,,0,S2,0,8\n",
];

const MATRIX_HEADER: &[u8] = b"id,sender,size,ticks,header,pdu,at,signal,start,bits\n";

#[test]
fn one_rule_broken(rt: HostRuntime) -> Result<(), Fail> {
    for (number, rows) in BROKEN.iter().enumerate() {
        let mut matrix = MATRIX_HEADER.to_vec(rt.alloc())?;
        matrix.extend_from_slice(rows)?;
        let texts = [NETWORK, SIGNALS, &matrix, CERT];
        expect_check(&rt, number, &texts, 5, b"rejected matrix\n")?;
    }
    Ok(())
}

/// Signals and a matrix for them, at an edge.
const EDGES: [(&[u8], &[u8]); 3] = [
    // 512 bits, of which the last is the frame's last; 32400 ticks.
    (
        b"S1,ECU1,,512,10000,10000,0\n",
        b"0,ECU1,64,32400,none,,0,S1,0,512\n",
    ),
    // The least and the greatest identifier, and rows in another order.
    (
        b"S1,ECU1,,8,10000,10000,0\nS2,ECU2,,8,10000,10000,0\n",
        b"2047,ECU2,1,7000,none,,0,S2,0,8\n0,ECU1,1,7000,none,,0,S1,0,8\n",
    ),
    // 511 bits and one more, which begins at position 511.
    (
        b"S1,ECU1,,511,10000,10000,0\nS2,ECU1,,1,10000,10000,0\n",
        b"7,ECU1,64,32400,none,,0,S1,0,511\n7,ECU1,64,32400,none,,0,S2,511,1\n",
    ),
];

const SIGNALS_HEADER: &[u8] = b"signal,sender,pdu,bits,period_us,deadline_us,jitter_us\n";

fn text_of(alloc: Global, header: &[u8], rows: &[u8]) -> Result<Vec<u8>, AllocError> {
    let mut text = header.to_vec(alloc)?;
    text.extend_from_slice(rows)?;
    Ok(text)
}

#[test]
fn at_the_edge(rt: HostRuntime) -> Result<(), Fail> {
    for (number, (signals, rows)) in EDGES.iter().enumerate() {
        let signals = text_of(rt.alloc(), SIGNALS_HEADER, signals)?;
        let matrix = text_of(rt.alloc(), MATRIX_HEADER, rows)?;
        let texts = [NETWORK, &signals, &matrix, CERT];
        expect_check(&rt, number, &texts, 0, b"placed\n")?;
    }
    Ok(())
}

/// So many signals of one bit, each in a frame of its own.
fn frames_of(alloc: Global, count: u32) -> Result<(Vec<u8>, Vec<u8>), AllocError> {
    let mut signals = SIGNALS_HEADER.to_vec(alloc)?;
    let mut matrix = MATRIX_HEADER.to_vec(alloc)?;
    for number in 0..count {
        let row = format!(in alloc; "S{number},ECU1,,1,10000,10000,0\n")?;
        signals.extend_from_slice(row.as_bytes())?;
        let row = format!(in alloc; "{number},ECU1,1,7000,none,,0,S{number},0,1\n")?;
        matrix.extend_from_slice(row.as_bytes())?;
    }
    Ok((signals, matrix))
}

/// Numbers of signals, with the status and what is said: 128 items are allowed, and 2048 signals.
const COUNTS: [(u32, u8, &[u8]); 4] = [
    (128, 0, b"placed\n"),
    (129, 4, b"refused SIGNALS too many items\n"),
    (2048, 4, b"refused SIGNALS too many items\n"),
    (2049, 4, b"refused SIGNALS too many signals\n"),
];

#[test]
fn as_many_frames_as_items(rt: HostRuntime) -> Result<(), Fail> {
    for (count, status, said) in COUNTS {
        let (signals, matrix) = frames_of(rt.alloc(), count)?;
        let mut texts = TWO_SIGNALS;
        texts[1] = &signals;
        texts[2] = &matrix;
        expect_check(&rt, count as usize, &texts, status, said)?;
    }
    Ok(())
}
