ghost use Rattle.std.specs.Prelude.{IsTrue};
ghost use Rattle.busy_period.specs.Checked.{is_stage};

use super::*;
use std::process::Abort;

macro_rules! timed {
    ($period:expr, $jitter:expr, $ticks:expr) => {
        Timed {
            period: $period,
            jitter: $jitter,
            ticks: $ticks,
            deadline: 1000,
        }
    };
}

/// The least busy period of a stage is the one that is known, and nothing shorter is one.
#[tactic(auto, using(crate::proofs::Checks::stage_from_test))]
fn expect_busy(rt: &impl Abort, frames: &[Timed], order: &[u32], place: usize, known: Option<u64>)
    requires { IsTrue (is_stage frames.now order.now place) }
{
    assert_eq!(rt; least_busy(frames, order, place), known);
    assert!(rt; !busy_holds(frames, order, place, u64::MAX));
    if let Some(busy) = known {
        assert!(rt; busy_holds(frames, order, place, busy));
        assert!(rt; !busy_holds(frames, order, place, busy - 1));
        assert_eq!(rt; demand(frames, order, place, busy), u128::from(busy));
    }
}

#[test]
fn busy_periods(rt: HostRuntime) {
    // Two frames that pass at the highest places, and a third whose busy period has two instances.
    let three = [
        timed!(2500, 0, 1000),
        timed!(3500, 0, 1000),
        timed!(3500, 0, 1000),
    ];
    expect_busy(&rt, &three, &[0, 1, 2], 0, Some(2000));
    expect_busy(&rt, &three, &[0, 1, 2], 1, Some(5000));
    expect_busy(&rt, &three, &[0, 1, 2], 2, Some(7000));
    // The same frame alone on the bus.
    expect_busy(&rt, &three, &[2], 0, Some(1000));
    // An over-full bus: the lower frame's level never falls idle.
    let full = [timed!(1000, 0, 600), timed!(1000, 0, 600)];
    expect_busy(&rt, &full, &[0, 1], 0, Some(1800));
    expect_busy(&rt, &full, &[0, 1], 1, None);
    // Jitter adds two instances.
    expect_busy(&rt, &[timed!(1000, 0, 300)], &[0], 0, Some(300));
    expect_busy(&rt, &[timed!(1000, 1500, 300)], &[0], 0, Some(900));
}

#[test]
fn up_to_256_instances(rt: HostRuntime) {
    // Each tick of blocking costs an instance: a period of 10 leaves one tick after 9.
    expect_busy(
        &rt,
        &[timed!(10, 0, 9), timed!(1000, 0, 256)],
        &[0, 1],
        0,
        Some(2560),
    );
    expect_busy(
        &rt,
        &[timed!(10, 0, 9), timed!(1000, 0, 257)],
        &[0, 1],
        0,
        None,
    );
    // A jitter of one period is one instance and its time.
    expect_busy(
        &rt,
        &[timed!(10, 10, 9), timed!(1000, 0, 246)],
        &[0, 1],
        0,
        Some(2550),
    );
    expect_busy(
        &rt,
        &[timed!(10, 10, 9), timed!(1000, 0, 247)],
        &[0, 1],
        0,
        None,
    );
}
