ghost use Rattle.std.specs.Prelude.{IsTrue};
ghost use Rattle.busy_period.specs.Checked.{is_stage};
ghost use Rattle.response_test.specs.Checked.{is_bit};

use super::*;
use busy_period::{Timed, least_busy};
use std::process::Abort;

macro_rules! timed {
    ($period:expr, $jitter:expr, $ticks:expr, $deadline:expr) => {
        Timed {
            period: $period,
            jitter: $jitter,
            ticks: $ticks,
            deadline: $deadline,
        }
    };
}

/// The worst response and the verdict are those that are known.
#[tactic(auto, using(crate::proofs::Checks::written_out))]
fn expect_verdict(
    rt: &impl Abort,
    frames: &[Timed],
    order: &[u32],
    place: usize,
    worst: Option<u64>,
    verdict: bool,
)
    requires stage { IsTrue (is_stage frames.now order.now place) }
    requires bit { IsTrue (is_bit frames.now 1) }
{
    assert_eq!(rt; worst_response(frames, order, place, 1), worst);
    assert_eq!(rt; passes(frames, order, place, 1), verdict);
}

/// The least starts are those that are known, they show a frame to pass where it does, and fewer of them or earlier
/// ones never do.
#[tactic(auto, using(crate::proofs::Checks::written_out))]
fn expect_starts(rt: &impl Abort, frames: &[Timed], order: &[u32], place: usize, starts: &[u64])
    requires stage { IsTrue (is_stage frames.now order.now place) }
    requires bit { IsTrue (is_bit frames.now 1) }
{
    let busy = least_busy(frames, order, place).expect(rt, "a busy period");
    let own = frames[order[place] as usize];
    assert_eq!(rt; starts.len() as u64, own.instances(busy));
    for (instance, &start) in starts.iter().enumerate() {
        assert_eq!(rt;
            least_queue(frames, order, place, 1, instance as u64),
            start
        );
    }
    let verdict = passes(frames, order, place, 1);
    assert_eq!(rt; shown(frames, order, place, 1, busy, starts), verdict);
    assert!(rt; !shown(frames, order, place, 1, busy, &starts[1..]));
    assert!(rt; !shown(frames, order, place, 1, busy - 1, starts));
}

#[test]
fn known_frames(rt: HostRuntime) {
    // Two frames pass, and the third misses by its second instance alone.
    let three = [
        timed!(2500, 0, 1000, 2500),
        timed!(3500, 0, 1000, 3250),
        timed!(3500, 0, 1000, 3250),
    ];
    expect_verdict(&rt, &three, &[0, 1, 2], 0, Some(2000), true);
    expect_verdict(&rt, &three, &[0, 1, 2], 1, Some(3000), true);
    expect_verdict(&rt, &three, &[0, 1, 2], 2, Some(3500), false);
    expect_starts(&rt, &three, &[0, 1, 2], 1, &[2000, 4000]);
    expect_starts(&rt, &three, &[0, 1, 2], 2, &[2000, 6000]);
    // A frame alone on the bus, at its deadline and past it.
    expect_verdict(&rt, &[timed!(1000, 0, 300, 300)], &[0], 0, Some(300), true);
    expect_verdict(&rt, &[timed!(1000, 0, 300, 299)], &[0], 0, Some(300), false);
    // Jitter adds two instances.
    expect_verdict(
        &rt,
        &[timed!(1000, 1500, 300, 1800)],
        &[0],
        0,
        Some(1800),
        true,
    );
    expect_starts(
        &rt,
        &[timed!(1000, 1500, 300, 1800)],
        &[0],
        0,
        &[0, 300, 600],
    );
    // An over-full bus.
    let full = [timed!(1000, 0, 600, 2000), timed!(1000, 0, 600, 2000)];
    expect_verdict(&rt, &full, &[0, 1], 1, None, false);
}

#[test]
fn edges(rt: HostRuntime) {
    // A higher frame that is queued within the bit in which the second begins comes first.
    let joined = [
        timed!(1000, 0, 400, 1000),
        timed!(5000, 0, 400, 1800),
        timed!(9000, 0, 600, 9000),
    ];
    expect_verdict(&rt, &joined, &[0, 1, 2], 1, Some(1800), true);
    expect_starts(&rt, &joined, &[0, 1, 2], 1, &[1400]);
    // A busy period of 256 instances, and one of 257.
    expect_verdict(
        &rt,
        &[timed!(10, 0, 9, 265), timed!(1000, 0, 256, 1000)],
        &[0, 1],
        0,
        Some(265),
        true,
    );
    expect_verdict(
        &rt,
        &[timed!(10, 0, 9, 266), timed!(1000, 0, 257, 1000)],
        &[0, 1],
        0,
        None,
        false,
    );
}
