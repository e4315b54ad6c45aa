// Certificates with trees: of the kinds `best`, `open` and `none`.
use crate::runs::{MATRIX, NETWORK, NO_ROWS, SIGNALS, TWO_FRAMES, expect_check};
use std::test::Fail;

/// One signal of 8 bits whose deadline is before its frame's end.
const LATE: &[u8] =
    b"signal,sender,pdu,bits,period_us,deadline_us,jitter_us\nS1,ECU1,,8,10000,87,0\n";

/// Three senders with one signal of 512 bits each, every millisecond.
const FULL: &[u8] =
    b"signal,sender,pdu,bits,period_us,deadline_us,jitter_us\nS1,ECU1,,512,1000,1000,0\nS2,ECU2,,512,1000,1000,0\nS3,ECU3,,512,1000,1000,0\n";

/// MATRIX and CERT of the two signals of one sender, with the status and what is said.
const TREES: [(&[u8], &[u8], u8, &[u8]); 27] = [
    // One frame is best: apart the signals load more. With marks it says the same.
    (
        MATRIX,
        b"canpack certificate 1\nkind best\nframe 7400 0\nmain\ni 1\ni 2\nb\nb\nend\n",
        0,
        b"best 7400/800000\n",
    ),
    (
        MATRIX,
        b"canpack certificate 1\nkind best\nframe 7400 0\nmain\nshard\ni 1\ni 2\nb\nb\njoin\nend\n",
        0,
        b"best 7400/800000\n",
    ),
    // The option of a new frame has no subtree, a subtree has no option, a complete grouping has none left.
    (
        MATRIX,
        b"canpack certificate 1\nkind best\nframe 7400 0\nmain\ni 1\ni 1\nb\nend\n",
        5,
        b"rejected tree\n",
    ),
    (
        MATRIX,
        b"canpack certificate 1\nkind best\nframe 7400 0\nmain\ni 2\nb\nb\nend\n",
        5,
        b"rejected tree\n",
    ),
    (
        MATRIX,
        b"canpack certificate 1\nkind best\nframe 7400 0\nmain\ni 1\ni 2\ni 1\nb\nb\nend\n",
        5,
        b"rejected tree\n",
    ),
    // With one signal placed the bound is 56000 eighths and 3200 for the other, which is what the best loads; with none it
    // is 6400.
    (
        MATRIX,
        b"canpack certificate 1\nkind best\nframe 7400 0\nmain\ni 1\nb\nend\n",
        0,
        b"best 7400/800000\n",
    ),
    (
        MATRIX,
        b"canpack certificate 1\nkind best\nframe 7400 0\nmain\nb\nend\n",
        5,
        b"rejected tree\n",
    ),
    // Leaves that the kind doesn't have; lemmas: one that stands, one an eighth above its bound, one of no sender.
    (
        MATRIX,
        b"canpack certificate 1\nkind best\nframe 7400 0\nmain\ni 1\no\nend\n",
        5,
        b"rejected tree\n",
    ),
    (
        MATRIX,
        b"canpack certificate 1\nkind best\nframe 7400 0\nlemma 0 6400\nb\nmain\ni 1\ni 2\nb\nb\nend\n",
        0,
        b"best 7400/800000\n",
    ),
    (
        MATRIX,
        b"canpack certificate 1\nkind best\nframe 7400 0\nlemma 0 6401\nb\nmain\ni 1\ni 2\nb\nb\nend\n",
        5,
        b"rejected tree\n",
    ),
    (
        MATRIX,
        b"canpack certificate 1\nkind best\nframe 7400 0\nlemma 1 0\nb\nmain\ni 1\ni 2\nb\nb\nend\n",
        5,
        b"rejected tree\n",
    ),
    // Fail leaves: no class, a class that isn't there, one twice, labels out of order, numbers beyond all times.
    (
        MATRIX,
        b"canpack certificate 1\nkind best\nframe 7400 0\nmain\ni 1\nf 0\nend\n",
        5,
        b"rejected tree\n",
    ),
    (
        MATRIX,
        b"canpack certificate 1\nkind best\nframe 7400 0\nmain\ni 1\nf 1\nover 5\nend\n",
        5,
        b"rejected tree\n",
    ),
    (
        MATRIX,
        b"canpack certificate 1\nkind best\nframe 7400 0\nmain\ni 1\nf 2\nover 0\nover 0\nend\n",
        5,
        b"rejected tree\n",
    ),
    (
        MATRIX,
        b"canpack certificate 1\nkind best\nframe 7400 0\nmain\ni 1\ni 2\nb\nf 2\nover 1\nover 0\nend\n",
        5,
        b"rejected tree\n",
    ),
    (
        MATRIX,
        b"canpack certificate 1\nkind best\nframe 7400 0\nmain\ni 1\nf 1\nlate 0 18446744073709551615 1 / 0\nend\n",
        5,
        b"rejected tree\n",
    ),
    (
        MATRIX,
        b"canpack certificate 1\nkind best\nframe 7400 0\nmain\ni 1\nf 1\nlong 0 1 0\nend\n",
        5,
        b"rejected tree\n",
    ),
    // A mark in a marked tree, and one that isn't closed.
    (
        MATRIX,
        b"canpack certificate 1\nkind best\nframe 7400 0\nmain\nshard\nshard\ni 1\ni 2\nb\nb\njoin\njoin\nend\n",
        4,
        b"refused CERT line 6\n",
    ),
    (
        MATRIX,
        b"canpack certificate 1\nkind best\nframe 7400 0\nmain\nshard\ni 1\ni 2\nb\nb\nend\n",
        4,
        b"refused CERT line 10\n",
    ),
    // An open tree: its bound is that of its open leaf, or the best where that is less, and a leaf is open.
    (
        TWO_FRAMES,
        b"canpack certificate 1\nkind open\nframe 14000 7000\nframe 14000 7000\nmain\ni 1\no\nend\n",
        0,
        b"open 14000/800000 59200/6400000\n",
    ),
    (
        MATRIX,
        b"canpack certificate 1\nkind open\nframe 7400 0\nmain\ni 1\ni 2\nb\no\nend\n",
        0,
        b"open 7400/800000 59200/6400000\n",
    ),
    (
        MATRIX,
        b"canpack certificate 1\nkind open\nframe 7400 0\nmain\ni 1\ni 2\nb\nb\nend\n",
        5,
        b"rejected tree\n",
    ),
    (
        NO_ROWS,
        b"canpack certificate 1\nkind open\nmain\ni 1\ni 2\no\no\nend\n",
        0,
        b"open - 59200/6400000\n",
    ),
    (
        NO_ROWS,
        b"canpack certificate 1\nkind open\nmain\ni 1\ni 2\no\nb\nend\n",
        5,
        b"rejected tree\n",
    ),
    (
        NO_ROWS,
        b"canpack certificate 1\nkind open\nframe 7400 0\nmain\no\nend\n",
        5,
        b"rejected timing\n",
    ),
    // A matrix where the kind has none, and a tree of nothing that fails.
    (
        NO_ROWS,
        b"canpack certificate 1\nkind none\nmain\ni 1\nf 1\nover 0\nend\n",
        5,
        b"rejected tree\n",
    ),
    (
        NO_ROWS,
        b"canpack certificate 1\nkind best\nframe 7400 0\nmain\ni 1\ni 2\nb\nb\nend\n",
        5,
        b"rejected matrix\n",
    ),
];

/// SIGNALS and CERT without a matrix, with the status and what is said.
const NO_SOLUTIONS: [(&[u8], &[u8], u8, &[u8]); 7] = [
    // A frame takes 7000 ticks and has 6960.
    (
        LATE,
        b"canpack certificate 1\nkind none\nmain\ni 1\nf 1\nlate 0 0 1 / 0\nend\n",
        0,
        b"none\n",
    ),
    (
        LATE,
        b"canpack certificate 1\nkind none\nmain\ni 1\nf 0\nend\n",
        5,
        b"rejected tree\n",
    ),
    (
        LATE,
        b"canpack certificate 1\nkind none\nmain\ni 1\nf 1\nlate 0 0 1 / 1\nend\n",
        5,
        b"rejected tree\n",
    ),
    (
        LATE,
        b"canpack certificate 1\nkind none\nmain\ni 1\nb\nend\n",
        5,
        b"rejected tree\n",
    ),
    (
        LATE,
        b"canpack certificate 1\nkind none\nframe 7000 0\nmain\ni 1\nf 1\nlate 0 0 1 / 0\nend\n",
        5,
        b"rejected timing\n",
    ),
    // Three frames take 97200 ticks of 80000, and two take 64800.
    (
        FULL,
        b"canpack certificate 1\nkind none\nmain\ni 1\ni 1\ni 1\nf 3\nover 0\nover 1\nover 2\nend\n",
        0,
        b"none\n",
    ),
    (
        FULL,
        b"canpack certificate 1\nkind none\nmain\ni 1\ni 1\ni 1\nf 2\nover 0\nover 1\nend\n",
        5,
        b"rejected tree\n",
    ),
];

/// The lines up to the main tree of the two signals in one frame.
const BEFORE_TREE: &[u8] = b"canpack certificate 1\nkind best\nframe 7400 0\nmain\n";

#[test]
fn trees(rt: HostRuntime) -> Result<(), Fail> {
    for (number, (matrix, cert, status, said)) in TREES.iter().enumerate() {
        let texts = [NETWORK, SIGNALS, *matrix, *cert];
        expect_check(&rt, number, &texts, *status, said)?;
    }
    Ok(())
}

#[test]
fn no_solutions(rt: HostRuntime) -> Result<(), Fail> {
    for (number, (signals, cert, status, said)) in NO_SOLUTIONS.iter().enumerate() {
        let texts = [NETWORK, *signals, NO_ROWS, *cert];
        expect_check(&rt, number, &texts, *status, said)?;
    }
    Ok(())
}

/// A line `i 1` below 128 others can't stand.
#[test]
fn deep_trees_are_refused(rt: HostRuntime) -> Result<(), Fail> {
    let mut cert = Vec::from_slice(rt.alloc(), BEFORE_TREE)?;
    for _ in 0..129 {
        cert.extend_from_slice(b"i 1\n")?;
    }
    let texts = [NETWORK, SIGNALS, MATRIX, &cert];
    expect_check(&rt, 129, &texts, 4, b"refused CERT line 133\n")
}
