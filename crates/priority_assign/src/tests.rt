ghost use Rattle.std.specs.Prelude.{◌≡◌, length, IsTrue};
ghost use Rattle.priority_assign.specs.Checked.{are_given};

use super::*;
use busy_period::Timed;
use std::process::Abort;

macro_rules! timed {
    ($period:expr, $ticks:expr, $deadline:expr) => {
        Timed {
            period: $period,
            jitter: 0,
            ticks: $ticks,
            deadline: $deadline,
        }
    };
}

/// The answer and the order are those that are known.
#[tactic(auto, using(crate::proofs::Checks::given))]
fn expect_assigned(
    rt: &impl Abort,
    frames: &[Timed],
    order: &mut [u32],
    answer: Assigned,
    known: &[u32],
)
    requires given { IsTrue (are_given frames.now) }
    requires length { length order.old ≡ length frames.now }
{
    assert_eq!(rt; assign(frames, 1, order), answer);
    assert_eq!(rt; &order[..], known);
}

#[test]
fn known_frames(rt: HostRuntime) {
    // Each of the three misses its deadline below the two others.
    let three = [
        timed!(2500, 1000, 2500),
        timed!(3500, 1000, 3250),
        timed!(3500, 1000, 3250),
    ];
    let stuck = Assigned::Stuck { remaining: 3 };
    expect_assigned(&rt, &three, &mut [0; 3], stuck, &[0, 1, 2]);
    // A short deadline is met at the top alone, and the greatest numbers that pass go lowest.
    let short = [
        timed!(1000, 100, 1000),
        timed!(1000, 100, 1000),
        timed!(1000, 100, 250),
    ];
    expect_assigned(&rt, &short, &mut [7; 3], Assigned::All, &[2, 0, 1]);
    // The second passes below the two others, and neither of those below the other one.
    let some = [
        timed!(1000, 100, 250),
        timed!(1000, 100, 1000),
        timed!(1000, 100, 250),
    ];
    let two = Assigned::Stuck { remaining: 2 };
    expect_assigned(&rt, &some, &mut [0; 3], two, &[0, 2, 1]);
    expect_assigned(&rt, &[], &mut [], Assigned::All, &[]);
}

#[test]
fn longest_times(rt: HostRuntime) {
    // 128 frames of the greatest period and the most ticks: each passes at each place.
    let frames = [timed!(100_000_000_000, 100_000_000, 100_000_000_000); 128];
    let mut order = [0; 128];
    assert_eq!(rt; assign(&frames, 1, &mut order), Assigned::All);
    assert_eq!(rt; order[127], 127);
}
