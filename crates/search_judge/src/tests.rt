//! Two signals of one byte every 10 ms, of one sender.
ghost use Rattle.pack_model.specs.Signal.{SignalStands};

use crate::judge::SearchJudge;
use grouping_tree::Partial;
use pack_model::{Name, Network, Problem, Signal, problem_of};
use std::alloc::Global;
use std::process::Abort;
use tree_search::Search;

/// A signal of one byte every 10 ms.
fn signal(rt: &impl Abort, alloc: Global, name: &[u8]) -> Signal
    ensures { SignalStands result }
{
    Signal {
        name: Name::new(alloc, name).expect(rt, "a name"),
        sender: Name::new(alloc, b"ECU1").expect(rt, "a name"),
        pdu: None,
        bits: 8,
        period_us: 10_000,
        deadline_us: 10_000,
        jitter_us: 0,
    }
}

/// Their problem.
fn two_signals(rt: &impl Abort, alloc: Global) -> Problem {
    let network = Network {
        ticks_per_us: 80,
        nominal_ticks: 160,
        data_ticks: 40,
        first_id: 256,
    };
    let first = signal(rt, alloc, b"S1");
    let second = signal(rt, alloc, b"S2");
    let signals = Vec::from_array(alloc, [first, second]).expect(rt, "memory");
    problem_of(alloc, network, signals).expect(rt, "a problem")
}

/// Both in one frame is complete, and the bound of both apart reaches its load.
#[test]
fn both_in_one_frame(rt: HostRuntime) {
    let problem = two_signals(&rt, rt.alloc());
    let mut judge = SearchJudge::new(rt.alloc(), &problem, None, &[]).expect(&rt, "memory");
    let partial = Partial::whole(rt.alloc(), &problem).expect(&rt, "memory");
    let mut search = Search::new(rt.alloc(), &problem, partial, None);
    let made = search
        .advance(&mut judge, &problem, 100)
        .expect(&rt, "memory");
    assert_eq!(rt; made, 4);
    let found = search.take_found().expect(&rt, "a grouping");
    assert_eq!(rt; found.labels.as_slice(), [0, 0].as_slice());
    assert_eq!(rt; found.order.as_slice(), [0].as_slice());
    assert_eq!(rt; search.count(), 4);
}
