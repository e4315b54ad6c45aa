//! Worked values of classes that are named with evidence.
ghost use Rattle.std.specs.Prelude.{IsTrue, [], ◌∷◌};
ghost use Rattle.busy_period.specs.Checked.{is_stage};
ghost use Rattle.response_test.specs.Checked.{is_bit, is_common};

use crate::refutes;
use busy_period::Timed;
use response_test::Evidence;

/// A frame of 64 bytes at 1 ms, in ticks of 12.5 ns.
const FRAME: Timed = Timed {
    period: 80_000,
    jitter: 0,
    ticks: 32_400,
    deadline: 80_000,
};

/// Whether the frames that are named are refuted.
#[tactic(auto, using(crate::proofs::FinalChecks::written_out))]
fn judged(frames: &[Timed], bit: u64, hyper: u64, named: &[(u32, Evidence)]) -> bool
    requires stage { IsTrue (is_stage frames.now (0 ∷ []) 0) }
    requires bit { IsTrue (is_bit frames.now bit) }
    requires hyper { IsTrue (is_common frames.now hyper) }
{
    refutes(frames, bit, hyper, named)
}

#[test]
fn three_long_frames(rt: HostRuntime) {
    let frames = [FRAME, FRAME, FRAME];
    let three = [
        (0, Evidence::Over),
        (1, Evidence::Over),
        (2, Evidence::Over),
    ];
    assert!(rt; judged(&frames, 160, 80_000, &three));
    // Two of them don't fill the bus.
    let two = [(0, Evidence::Over), (1, Evidence::Over)];
    assert!(rt; !judged(&frames, 160, 80_000, &two));
}
