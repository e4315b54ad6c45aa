//! Two signals of one length every 10 ms, of one sender.
ghost use Rattle.std.specs.Prelude.{◌≡◌, ◌≤◌};
ghost use Rattle.pack_model.specs.Signal.{SignalStands};
ghost use Rattle.grouping_tree.specs.Grouped.{Belongs, range_of};

use crate::{Ahead, Partial};
use pack_model::{Name, Network, Problem, Signal, problem_of};
use std::alloc::Global;
use std::process::Abort;

fn are_shared<T: Send + Sync>() {}

/// A signal of so many bits every 10 ms.
fn signal(rt: &impl Abort, alloc: Global, name: &[u8], bits: u32) -> Signal
    requires some { 1 ≤ bits }
    requires few { bits ≤ 8 }
    ensures { SignalStands result }
{
    Signal {
        name: Name::new(alloc, name).expect(rt, "a name"),
        sender: Name::new(alloc, b"ECU1").expect(rt, "a name"),
        pdu: None,
        bits,
        period_us: 10_000,
        deadline_us: 10_000,
        jitter_us: 0,
    }
}

/// Their problem.
fn two_signals(rt: &impl Abort, alloc: Global, bits: u32) -> Problem
    requires some { 1 ≤ bits }
    requires few { bits ≤ 8 }
{
    let network = Network {
        ticks_per_us: 80,
        nominal_ticks: 160,
        data_ticks: 40,
        first_id: 256,
    };
    let first = signal(rt, alloc, b"S1", bits);
    let second = signal(rt, alloc, b"S2", bits);
    let signals = Vec::from_array(alloc, [first, second]).expect(rt, "memory");
    problem_of(alloc, network, signals).expect(rt, "a problem")
}

/// Goes down, where an item is left.
fn go_down(partial: &mut Partial, problem: &Problem)
    requires belongs { Belongs problem.now partial.old }
    requires all { range_of problem.now partial.old ≡ problem.now.items }
    ensures belongs { Belongs problem.now partial.new }
    ensures all { range_of problem.now partial.new ≡ problem.now.items }
{
    if partial.labels().len() < problem.items().len() {
        partial.enter(problem);
    }
}

/// What all classes come to with the least option that is at least `from`, if there is one.
fn ahead_from(partial: &Partial, problem: &Problem, from: u32) -> Option<Ahead>
    requires { Belongs problem.now partial.now }
{
    let label = partial.next_option(problem, from)?;
    Some(partial.ahead(label))
}

/// Signals of half a byte share a frame of one byte, which takes 7000 ticks; apart each leaves 4 bits free, of 10 times 40
/// eighths each.
#[test]
fn together_and_apart(rt: HostRuntime) {
    are_shared::<Partial>();
    let problem = two_signals(&rt, rt.alloc(), 4);
    let mut partial = Partial::whole(rt.alloc(), &problem).expect(&rt, "memory");
    assert_eq!(rt; partial.options(&problem), 1);
    go_down(&mut partial, &problem);
    assert_eq!(rt; partial.kept_load(), 7000);
    assert_eq!(rt; partial.kept_slack(), 1600);
    assert_eq!(rt;
        ahead_from(&partial, &problem, 0),
        Some(Ahead {
            load: 7000,
            slack: 0
        })
    );
    assert_eq!(rt;
        ahead_from(&partial, &problem, 1),
        Some(Ahead {
            load: 14000,
            slack: 3200
        })
    );
    go_down(&mut partial, &problem);
    assert_eq!(rt; partial.options(&problem), 0);
    assert_eq!(rt; partial.kept_load(), 7000);
    assert_eq!(rt; partial.kept_slack(), 0);
    assert!(rt; partial.leave(&problem, 0));
    assert_eq!(rt; partial.frames().len(), 2);
    assert_eq!(rt; partial.kept_load(), 14000);
    assert_eq!(rt; partial.kept_slack(), 3200);
    assert!(rt; !partial.leave(&problem, 0));
    if problem.senders().len() == 1 {
        let one = Partial::of_sender(rt.alloc(), &problem, 0).expect(&rt, "memory");
        assert_eq!(rt; one.range(), Some(0));
    }
}
