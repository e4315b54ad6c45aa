//! Worked values of a case.
use super::*;
use pack_model::{Memory, Signal};
use std::process::Abort;

/// A signal of the case, by its name, sender, bits and period.
fn expect_signal(
    rt: &impl Abort,
    signal: &Signal,
    name: &[u8],
    sender: &[u8],
    bits: u32,
    period_us: u32,
) {
    assert!(rt; signal.name.bytes() == name);
    assert!(rt; signal.sender.bytes() == sender);
    assert_eq!(rt; signal.bits, bits);
    assert_eq!(rt; signal.period_us, period_us);
}

#[test]
fn case_of_1(rt: HostRuntime) -> Result<(), Memory> {
    let case = make_case(rt.alloc(), 1)?;
    let signals = case.signals.as_slice();
    assert_eq!(rt; signals.len(), 25);
    expect_signal(&rt, &signals[0], b"S1", b"ECU1", 2, 100_000);
    expect_signal(&rt, &signals[1], b"S2", b"ECU1", 12, 100_000);
    expect_signal(&rt, &signals[2], b"S3", b"ECU1", 3, 100_000);
    expect_signal(&rt, &signals[3], b"S4", b"ECU1", 5, 50_000);
    assert!(rt; signals[7].sender.bytes() == b"ECU2".as_slice());
    assert!(rt; signals[24].sender.bytes() == b"ECU4".as_slice());
    Ok(())
}

#[test]
fn problem_of_case_1(rt: HostRuntime) -> Result<(), Memory> {
    let problem = problem_of_case(rt.alloc(), 1)?;
    assert_eq!(rt; problem.signals().len(), 25);
    assert_eq!(rt; problem.senders().len(), 4);
    assert_eq!(rt; problem.hyper(), 8_000_000);
    Ok(())
}
