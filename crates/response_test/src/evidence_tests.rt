//! Worked values of the evidence of a stage.
ghost use Rattle.std.specs.Prelude.{IsTrue};
ghost use Rattle.busy_period.specs.Checked.{is_stage};
ghost use Rattle.response_test.specs.Checked.{is_bit, is_common};

use crate::{Evidence, evidence_of, refuted};
use busy_period::Timed;
use std::alloc::Global;
use std::process::Abort;

macro_rules! timed {
    ($period:expr, $ticks:expr, $deadline:expr) => {
        Timed {
            period: $period,
            jitter: 0,
            ticks: $ticks,
            deadline: $deadline,
        }
    };
}

/// The evidence against the frame at a place, which stands.
#[tactic(auto, using(crate::proofs::Checks::written_out))]
fn evidence(
    rt: &impl Abort,
    alloc: Global,
    frames: &[Timed],
    order: &[u32],
    place: usize,
    bit: u64,
    hyper: u64,
) -> Evidence
    requires stage { IsTrue (is_stage frames.now order.now place) }
    requires bit { IsTrue (is_bit frames.now bit) }
    requires hyper { IsTrue (is_common frames.now hyper) }
{
    let found = evidence_of(alloc, frames, order, place, bit, hyper)
        .expect(rt, "memory")
        .expect(rt, "evidence");
    assert!(rt; refuted(frames, order, place, bit, hyper, &found));
    found
}

/// The evidence is that an instance is late, by these chains.
fn expect_late(rt: &impl Abort, found: Evidence, number: u64, level: &[u64], start: &[u64]) {
    let Evidence::Late { q, busy, queue } = found else {
        panic!(rt; "an instance is late");
    };
    assert_eq!(rt; q, number);
    assert!(rt; busy.as_slice() == level);
    assert!(rt; queue.as_slice() == start);
}

#[test]
fn known_evidence(rt: HostRuntime) {
    // A frame alone that misses its deadline by its own ticks.
    let one = [timed!(800_000, 7000, 6960)];
    let found = evidence(&rt, rt.alloc(), &one, &[0], 0, 160, 800_000);
    expect_late(&rt, found, 0, &[1], &[0]);
    // Of three long frames the second is late behind the others, and all three over-fill the bus.
    let three = [
        timed!(80_000, 32_400, 80_000),
        timed!(80_000, 32_400, 80_000),
        timed!(80_000, 32_400, 80_000),
    ];
    let found = evidence(&rt, rt.alloc(), &three, &[0, 1, 2], 1, 160, 80_000);
    expect_late(&rt, found, 0, &[1], &[0, 64_800]);
    let found = evidence(&rt, rt.alloc(), &three, &[0, 1, 2], 2, 160, 80_000);
    assert!(rt; matches!(found, Evidence::Over));
    // A lower frame blocks for longer than 256 instances, at half a bus.
    let blocked = [timed!(2, 1, 2), timed!(1000, 600, 1000)];
    let found = evidence(&rt, rt.alloc(), &blocked, &[0, 1], 0, 1, 1000);
    let Evidence::Long(chain) = found else {
        panic!(rt; "no busy period");
    };
    assert!(rt; chain.as_slice() == [1, 513].as_slice());
}
