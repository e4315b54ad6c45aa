// Certificates of kind `timed`, and texts that are no certificate.
use crate::runs::{MATRIX, NETWORK, SIGNALS, TWO_FRAMES, expect_check};
use std::test::Fail;

/// The second signal begins in the last bit of the first.
const OVERLAPPING: &[u8] =
    b"id,sender,size,ticks,header,pdu,at,signal,start,bits\n256,ECU1,2,7400,none,,0,S1,0,8\n256,ECU1,2,7400,none,,0,S2,7,8\n";

/// A start with a leading zero.
const BAD_ROW: &[u8] =
    b"id,sender,size,ticks,header,pdu,at,signal,start,bits\n256,ECU1,2,7400,none,,0,S1,0,8\n256,ECU1,2,7400,none,,0,S2,08,8\n";

/// MATRIX and CERT of the two signals, with the status and what is said.
const CERTIFICATES: [(&[u8], &[u8], u8, &[u8]); 21] = [
    // The frame's ticks, which the frame needs, and one tick less.
    (
        MATRIX,
        b"canpack certificate 1\nkind timed\nframe 7400 0\nend\n",
        0,
        b"timed 7400/800000\n",
    ),
    (
        MATRIX,
        b"canpack certificate 1\nkind timed\nframe 7399 0\nend\n",
        5,
        b"rejected timing\n",
    ),
    // Fronts, a second end, and lines that can't stand.
    (MATRIX, b"canpack certificate 1\n", 4, b"refused CERT cut\n"),
    (
        MATRIX,
        b"canpack certificate 1\nkind timed\n",
        4,
        b"refused CERT cut\n",
    ),
    (
        MATRIX,
        b"canpack certificate 1\nkind timed\nframe 7400 0\n",
        4,
        b"refused CERT cut\n",
    ),
    (
        MATRIX,
        b"canpack certificate 1\nkind timed\nframe 7400 0\nend\nend\n",
        4,
        b"refused CERT line 5\n",
    ),
    (
        MATRIX,
        b"canpack certificate 1\nkind timed\nframe 18446744073709551616 0\nend\n",
        4,
        b"refused CERT line 3\n",
    ),
    (
        MATRIX,
        b"canpack certificate 1\nkind timed\nframe 07400 0\nend\n",
        4,
        b"refused CERT line 3\n",
    ),
    (
        MATRIX,
        b"canpack certificate 1\nkind best\nframe 7400 0\nend\n",
        4,
        b"refused CERT line 4\n",
    ),
    (
        MATRIX,
        b"canpack certificate 1\nkind best\nframe 7400 0\nmain\ni 1\ni 2\nb\nb\nen",
        4,
        b"refused CERT cut\n",
    ),
    // The matrix is judged first, then the timing, and then the tree.
    (
        MATRIX,
        b"canpack certificate 1\nkind none\nmain\no\nend\n",
        5,
        b"rejected matrix\n",
    ),
    (
        MATRIX,
        b"canpack certificate 1\nkind best\nframe 7399 0\nmain\ni 1\ni 2\nb\nb\nend\n",
        5,
        b"rejected timing\n",
    ),
    (
        MATRIX,
        b"canpack certificate 1\nkind best\nframe 7400 0\nmain\nb\nend\n",
        5,
        b"rejected tree\n",
    ),
    // The greatest number, no line for the frame, and two.
    (
        MATRIX,
        b"canpack certificate 1\nkind timed\nframe 18446744073709551615 0\nend\n",
        5,
        b"rejected timing\n",
    ),
    (
        MATRIX,
        b"canpack certificate 1\nkind timed\nend\n",
        5,
        b"rejected timing\n",
    ),
    (
        MATRIX,
        b"canpack certificate 1\nkind timed\nframe 7400 0\nframe 7400 0\nend\n",
        5,
        b"rejected timing\n",
    ),
    // The matrix is judged before the timing, and CERT read before the matrix is judged, but after MATRIX.
    (
        OVERLAPPING,
        b"canpack certificate 1\nkind timed\nframe 7399 0\nend\n",
        5,
        b"rejected matrix\n",
    ),
    (
        OVERLAPPING,
        b"canpack certificate 1\nkind timed\nframe 7400 0\n",
        4,
        b"refused CERT cut\n",
    ),
    (
        BAD_ROW,
        b"canpack certificate 1\nkind best\n",
        4,
        b"refused MATRIX row 3 column start\n",
    ),
    // Two frames: the first waits for the second, and the second for the first.
    (
        TWO_FRAMES,
        b"canpack certificate 1\nkind timed\nframe 14000 7000\nframe 14000 7000\nend\n",
        0,
        b"timed 14000/800000\n",
    ),
    (
        TWO_FRAMES,
        b"canpack certificate 1\nkind timed\nframe 14000 7000\nframe 7000 0\nend\n",
        5,
        b"rejected timing\n",
    ),
];

#[test]
fn certificates(rt: HostRuntime) -> Result<(), Fail> {
    for (number, (matrix, cert, status, said)) in CERTIFICATES.iter().enumerate() {
        let texts = [NETWORK, SIGNALS, *matrix, *cert];
        expect_check(&rt, number, &texts, *status, said)?;
    }
    Ok(())
}
