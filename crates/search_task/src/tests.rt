//! Two signals of one byte every 10 ms, of one sender.
ghost use Rattle.pack_model.specs.Signal.{SignalStands};
ghost use Rattle.search_task.specs.Task.{IsTask};

use crate::task::Task;
use grouping_tree::Partial;
use pack_model::{Name, Network, Problem, Signal, problem_of};
use std::alloc::Global;
use std::process::Abort;

/// A signal of one byte every 10 ms.
fn signal(rt: &impl Abort, alloc: Global, name: &[u8]) -> Signal
    ensures { SignalStands result }
{
    Signal {
        name: Name::new(alloc, name).expect(rt, "a name"),
        sender: Name::new(alloc, b"ECU1").expect(rt, "a name"),
        pdu: None,
        bits: 8,
        period_us: 10_000,
        deadline_us: 10_000,
        jitter_us: 0,
    }
}

/// Their problem.
fn two_signals(rt: &impl Abort, alloc: Global) -> Problem {
    let network = Network {
        ticks_per_us: 80,
        nominal_ticks: 160,
        data_ticks: 40,
        first_id: 256,
    };
    let first = signal(rt, alloc, b"S1");
    let second = signal(rt, alloc, b"S2");
    let signals = Vec::from_array(alloc, [first, second]).expect(rt, "memory");
    problem_of(alloc, network, signals).expect(rt, "a problem")
}

/// The task at the empty grouping, without lemmas.
fn whole_task(rt: &impl Abort, alloc: Global, problem: &Problem) -> Task
    ensures { IsTask problem.now result }
{
    let empty = Partial::whole(alloc, problem).expect(rt, "memory");
    let lemmas = vec![in alloc; 0u128; problem.senders().len()].expect(rt, "memory");
    Task::new(alloc, problem, empty.labels(), None, &lemmas).expect(rt, "memory")
}

/// Two turns of two steps: the second finds both in one frame of 7400 ticks.
#[test]
fn two_turns(rt: HostRuntime) {
    let problem = two_signals(&rt, rt.alloc());
    let mut task = whole_task(&rt, rt.alloc(), &problem);
    let made = task.advance(&problem, None, 2).expect(&rt, "memory");
    assert_eq!(rt; made, 2);
    assert!(rt; task.pending());
    let made = task.advance(&problem, None, 5).expect(&rt, "memory");
    assert_eq!(rt; made, 2);
    assert!(rt; !task.pending());
    assert_eq!(rt; task.load(), Some(7400));
    let found = task.found().expect(&rt, "memory").expect(&rt, "a grouping");
    assert_eq!(rt; found.labels.as_slice(), [0, 0].as_slice());
}
