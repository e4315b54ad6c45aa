// What `make` writes and says, and what is left where a call fails.
use crate::runs::{NETWORK, status_of};
use pack_base::{MemFolder, MemSink};
use std::test::Fail;

const MAKE: [&str; 4] = ["make", "1", "n.json", "s.csv"];

const SAID: &[u8] = b"case 1 signals 25 senders 4\n";

/// The first lines of the signals of case 1.
const FIRST_LINES: &[u8] =
    b"signal,sender,pdu,bits,period_us,deadline_us,jitter_us\nS1,ECU1,,2,100000,100000,0\nS2,ECU1,,12,100000,100000,0\nS3,ECU1,,3,100000,100000,0\nS4,ECU1,,5,50000,50000,0\n";

/// Words that are no line of `make`.
const WRONG: [&[&str]; 9] = [
    &["make"],
    &["make", "1000001"],
    &["make", "1", "n.json"],
    &["make", "1000001", "n.json", "s.csv"],
    &["make", "01", "n.json", "s.csv"],
    &["make", "", "n.json", "s.csv"],
    &["make", "1", "n.json", "n.json"],
    &["make", "1", "", "s.csv"],
    &["make", "1", "n.json", "s.csv", "1"],
];

#[test]
fn wrong_words_make_nothing(rt: HostRuntime) -> Result<(), Fail> {
    for (number, words) in WRONG.iter().enumerate() {
        let mut folder = MemFolder::new(rt.alloc());
        let mut out = MemSink::new(rt.alloc());
        assert_eq!(rt;
            status_of(&rt, words, &mut folder, &mut out)?,
            1,
            "words {number}"
        );
        assert!(rt; folder.get("n.json").is_none(), "words {number}");
    }
    Ok(())
}

/// Whether the file is there and begins with these bytes.
fn begins(folder: &MemFolder, name: &str, front: &[u8]) -> bool {
    match folder.get(name) {
        Some(text) => text.starts_with(front),
        None => false,
    }
}

/// The call of the folder that fails, whether saying fails, the status, NETWORK after it, whether SIGNALS begins
/// with its first lines, and what is said. Each file takes a call to create and one to append to.
const RUNS: [(u64, bool, u8, Option<&[u8]>, bool, &[u8]); 7] = [
    (0, false, 0, Some(NETWORK), true, SAID),
    (0, true, 7, Some(NETWORK), true, b""),
    (1, false, 3, None, false, b""),
    (2, false, 3, Some(b""), false, b""),
    (3, false, 3, Some(NETWORK), false, b""),
    (4, false, 3, Some(NETWORK), false, b""),
    (5, false, 0, Some(NETWORK), true, SAID),
];

#[test]
fn files_after_a_case(rt: HostRuntime) -> Result<(), Fail> {
    for (number, (call, mute, status, network, whole, said)) in RUNS.iter().enumerate() {
        let mut folder = MemFolder::new(rt.alloc());
        folder.fail_at(*call)?;
        let mut out = MemSink::new(rt.alloc());
        if *mute {
            out.fail_at(1)?;
        }
        assert_eq!(rt;
            status_of(&rt, &MAKE, &mut folder, &mut out)?,
            *status,
            "run {number}"
        );
        assert_eq!(rt; folder.get("n.json"), *network, "run {number}");
        assert_eq!(rt;
            begins(&folder, "s.csv", FIRST_LINES),
            *whole,
            "run {number}"
        );
        assert_eq!(rt; out.said(), *said, "run {number}");
    }
    Ok(())
}

/// A generated case planned in memory: no file is touched.
#[test]
fn a_case_is_planned(rt: HostRuntime) -> Result<(), Fail> {
    let mut folder = MemFolder::new(rt.alloc());
    let mut out = MemSink::new(rt.alloc());
    assert_eq!(rt; status_of(&rt, &["make", "1"], &mut folder, &mut out)?, 0);
    assert_eq!(rt;
        out.said(),
        b"case 1 signals 25 senders 4 best 354200/8000000\n".as_slice()
    );
    Ok(())
}
