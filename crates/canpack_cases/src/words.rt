// Words, files that are missing, and calls that fail.
use crate::runs::{CHECK, NAMES, TWO_SIGNALS, folder_of, status_of};
use pack_base::{MemFolder, MemSink};
use std::test::Fail;

const USAGE: &[u8] =
    b"usage: plan NETWORK SIGNALS MATRIX CERT BRANCHES WORKERS | check NETWORK SIGNALS MATRIX CERT WORKERS | make NUMBER [NETWORK SIGNALS]\n";

/// Words that are the line of no command.
const WRONG: [&[&str]; 12] = [
    &[],
    &["check"],
    &["check", "n", "s", "m", "c"],
    &["check", "n", "s", "m", "c", "1", "1"],
    &["Check", "n", "s", "m", "c", "1"],
    &["check", "n", "s", "m", "c", "0"],
    &["check", "n", "s", "m", "c", "65"],
    &["check", "n", "s", "m", "c", "01"],
    &["check", "n", "s", "m", "c", ""],
    &["check", "n", "", "m", "c", "1"],
    &["check", "n", "s", "n", "c", "1"],
    &["make", "01"],
];

#[test]
fn wrong_words(rt: HostRuntime) -> Result<(), Fail> {
    for (number, words) in WRONG.iter().enumerate() {
        let mut folder = folder_of(&rt, &TWO_SIGNALS)?;
        let mut out = MemSink::new(rt.alloc());
        let answer = status_of(&rt, words, &mut folder, &mut out)?;
        assert_eq!(rt; answer, 1, "words {number}");
        assert_eq!(rt; out.said(), USAGE, "words {number}");
    }
    Ok(())
}

/// The texts of the files that are there, the call of the folder that fails, with the status and what is said.
const FILES: [(&[usize], u64, u8, &[u8]); 9] = [
    (&[0, 1, 2, 3], 0, 0, b"placed\n"),
    (&[1, 2, 3], 0, 2, b""),
    (&[0, 2, 3], 0, 2, b""),
    (&[0, 1, 3], 0, 2, b""),
    (&[0, 1, 2], 0, 2, b""),
    (&[], 0, 2, b""),
    // Each file is read in two calls: the second finds its end.
    (&[0, 1, 2, 3], 4, 2, b""),
    (&[0, 1, 2, 3], 8, 2, b""),
    (&[0, 1, 2, 3], 9, 0, b"placed\n"),
];

#[test]
fn files_that_fail(rt: HostRuntime) -> Result<(), Fail> {
    for (number, (there, call, status, said)) in FILES.iter().enumerate() {
        let mut folder = MemFolder::new(rt.alloc());
        for file in there.iter() {
            if *file < 4 {
                folder.put(NAMES[*file], TWO_SIGNALS[*file])?;
            }
        }
        folder.fail_at(*call)?;
        let mut out = MemSink::new(rt.alloc());
        let answer = status_of(&rt, &CHECK, &mut folder, &mut out)?;
        assert_eq!(rt; answer, *status, "files {number}");
        assert_eq!(rt; out.said(), *said, "files {number}");
    }
    Ok(())
}

/// Words whose line is said.
const SAYING: [&[&str]; 2] = [
    &[
        "check",
        "network.json",
        "signals.csv",
        "matrix.csv",
        "cert.txt",
        "1",
    ],
    &[],
];

#[test]
fn saying_fails(rt: HostRuntime) -> Result<(), Fail> {
    for words in SAYING.iter() {
        let mut folder = folder_of(&rt, &TWO_SIGNALS)?;
        let mut out = MemSink::new(rt.alloc());
        out.fail_at(1)?;
        assert_eq!(rt; status_of(&rt, words, &mut folder, &mut out)?, 7);
        assert_eq!(rt; out.said(), b"".as_slice());
        for (name, text) in NAMES.iter().zip(&TWO_SIGNALS) {
            assert_eq!(rt; folder.get(name), Some(*text));
        }
    }
    Ok(())
}
