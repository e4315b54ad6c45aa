//! Certificates of small problems.
ghost use Rattle.pack_model.specs.Signal.{SignalStands};
ghost use Rattle.cert_check.specs.Taken.{HasTaken};

use crate::{CertWalk, CheckFault, check_cert};
use bandwidth_bound::Verdict;
use cert_text::{Event, Kind, read_cert};
use matrix_text::read_matrix;
use pack_model::{Name, Network, Problem, Signal, problem_of};
use std::alloc::Global;
use std::process::Abort;

/// A matrix of no rows.
const NO_ROWS: &[u8] = b"id,sender,size,ticks,header,pdu,at,signal,start,bits\n";

/// The two signals in one frame.
const ONE_FRAME: &[u8] = b"id,sender,size,ticks,header,pdu,at,signal,start,bits\n\
    256,ECU1,2,7400,none,,0,S1,0,8\n\
    256,ECU1,2,7400,none,,0,S2,8,8\n";

/// A signal of one byte every 10 ms.
fn signal(rt: &impl Abort, alloc: Global, name: &[u8], sender: &[u8]) -> Signal
    ensures { SignalStands result }
{
    Signal {
        name: Name::new(alloc, name).expect(rt, "a name"),
        sender: Name::new(alloc, sender).expect(rt, "a name"),
        pdu: None,
        bits: 8,
        period_us: 10_000,
        deadline_us: 10_000,
        jitter_us: 0,
    }
}

/// The problem of two such signals, the first of ECU1.
fn two_signals(rt: &impl Abort, alloc: Global, sender: &[u8]) -> Problem {
    let network = Network {
        ticks_per_us: 80,
        nominal_ticks: 160,
        data_ticks: 40,
        first_id: 256,
    };
    let first = signal(rt, alloc, b"S1", b"ECU1");
    let second = signal(rt, alloc, b"S2", sender);
    let signals = Vec::from_array(alloc, [first, second]).expect(rt, "memory");
    problem_of(alloc, network, signals).expect(rt, "a problem")
}

/// What is found of the texts of a matrix and a certificate.
fn found(
    rt: &impl Abort,
    alloc: Global,
    problem: &Problem,
    matrix: &[u8],
    cert: &[u8],
) -> Result<Verdict, CheckFault> {
    let matrix = read_matrix(alloc, matrix).expect(rt, "a matrix");
    let cert = read_cert(alloc, cert).expect(rt, "a certificate");
    check_cert(alloc, problem, &matrix, &cert)
}

/// One frame of two bytes takes 7400 ticks, two frames of one byte 14000.
#[test]
fn one_frame_is_best(rt: HostRuntime) {
    let problem = two_signals(&rt, rt.alloc(), b"ECU1");
    let best = b"canpack certificate 1\nkind best\nframe 7400 0\nmain\ni 1\ni 2\nb\nb\nend\n";
    let answer = found(&rt, rt.alloc(), &problem, ONE_FRAME, best);
    assert_eq!(rt; answer, Ok(Verdict::Best { load: 7400 }));
    let short = b"canpack certificate 1\nkind best\nframe 7400 0\nmain\ni 1\ni 1\nb\nend\n";
    let answer = found(&rt, rt.alloc(), &problem, ONE_FRAME, short);
    assert_eq!(rt; answer, Err(CheckFault::RejectedTree));
}

/// Left open at one signal, of which one frame takes 7000 ticks; the byte of the other takes at least ten data
/// bits more, which are 400 ticks. 8 times 7400 is the bound without a matrix.
#[test]
fn the_bound_is_that_of_the_open_leaf(rt: HostRuntime) {
    let problem = two_signals(&rt, rt.alloc(), b"ECU1");
    let open = b"canpack certificate 1\nkind open\nmain\ni 1\no\nend\n";
    let answer = found(&rt, rt.alloc(), &problem, NO_ROWS, open);
    assert_eq!(rt;
        answer,
        Ok(Verdict::Between {
            best: None,
            lower: 59_200
        })
    );
}

/// Each of two senders alone has one frame of 7000 ticks in the common period of 10 ms: 56000 eighths. The bound
/// at the empty grouping is twice as much, and no lemma shows an eighth more.
#[test]
fn lemmas_bound_what_senders_load(rt: HostRuntime) {
    let problem = two_signals(&rt, rt.alloc(), b"ECU2");
    let open =
        b"canpack certificate 1\nkind open\nlemma 0 56000\ni 1\nb\nlemma 1 56000\ni 1\nb\nmain\no\nend\n";
    let answer = found(&rt, rt.alloc(), &problem, NO_ROWS, open);
    assert_eq!(rt;
        answer,
        Ok(Verdict::Between {
            best: None,
            lower: 112_000
        })
    );
    let more = b"canpack certificate 1\nkind open\nlemma 0 56001\ni 1\nb\nmain\no\nend\n";
    let answer = found(&rt, rt.alloc(), &problem, NO_ROWS, more);
    assert_eq!(rt; answer, Err(CheckFault::RejectedTree));
}

/// Tells a walk events.
fn tell(walk: &mut CertWalk, problem: &Problem, events: &[Event])
    requires { HasTaken walk.old problem.now }
    ensures { HasTaken walk.new problem.now }
{
    for event in events {
        walk.take(problem, event);
    }
}

/// Passes over a tree.
fn pass(walk: &mut CertWalk, problem: &Problem)
    requires { HasTaken walk.old problem.now }
    ensures { HasTaken walk.new problem.now }
{
    walk.pass_over(problem);
}

/// A walk over a problem and the text of a matrix that was told some events.
fn walk_of(
    rt: &impl Abort,
    alloc: Global,
    problem: &Problem,
    matrix: &[u8],
    events: &[Event],
) -> CertWalk
    ensures { HasTaken result problem.now }
{
    let matrix = read_matrix(alloc, matrix).expect(rt, "a matrix");
    let mut walk = CertWalk::new(alloc, problem, &matrix).expect(rt, "memory");
    tell(&mut walk, problem, events);
    walk
}

/// The labels of the place of a walk that hasn't failed.
fn place_is(rt: &impl Abort, walk: &CertWalk, problem: &Problem, labels: &[u32]) -> bool
    requires { HasTaken walk.now problem.now }
{
    assert!(rt; !walk.failed());
    walk.path() == labels
}

/// Two signals of one sender are put one after the other, the second into the frame of the first or into another.
/// Holes may stand at both places, and no third one.
#[test]
fn a_hole_is_a_tree_at_its_place(rt: HostRuntime) {
    let problem = two_signals(&rt, rt.alloc(), b"ECU1");
    let events = [
        Event::Head(Kind::KindNoSolution),
        Event::Main,
        Event::Node(1),
        Event::Node(2),
    ];
    let mut walk = walk_of(&rt, rt.alloc(), &problem, NO_ROWS, &events);
    assert_eq!(rt; walk.kind(), Kind::KindNoSolution);
    assert_eq!(rt; walk.best(), None);
    assert_eq!(rt; walk.lemma(), None);
    assert!(rt; place_is(&rt, &walk, &problem, &[0, 0]));
    pass(&mut walk, &problem);
    assert!(rt; place_is(&rt, &walk, &problem, &[0, 1]));
    pass(&mut walk, &problem);
    assert_eq!(rt; walk.verdict(&problem), Ok(Verdict::NoSolution));
    pass(&mut walk, &problem);
    assert!(rt; walk.failed());
    assert_eq!(rt;
        walk.verdict_joined(&problem, None),
        Err(CheckFault::RejectedTree)
    );
}

/// The line of the lemma of a sender whose signal alone is a frame of 7000 ticks: 56000 eighths.
fn lemma_of(sender: u32) -> Event {
    Event::LemmaOf {
        sender,
        value: 56_000,
    }
}

/// The trees of two lemmas are passed over. With their values the bound where nothing is put is twice 56000; that
/// of an open leaf that was passed over may be less.
#[test]
fn a_bound_comes_back(rt: HostRuntime) {
    let problem = two_signals(&rt, rt.alloc(), b"ECU2");
    let events = [Event::Head(Kind::KindBetween), lemma_of(0)];
    let mut walk = walk_of(&rt, rt.alloc(), &problem, NO_ROWS, &events);
    assert_eq!(rt; walk.lemma(), Some(0));
    assert_eq!(rt; walk.lemma_values(), [56_000, 0].as_slice());
    pass(&mut walk, &problem);
    tell(&mut walk, &problem, &[lemma_of(1)]);
    pass(&mut walk, &problem);
    tell(&mut walk, &problem, &[Event::Main, Event::OpenLeaf]);
    let less = Verdict::Between {
        best: None,
        lower: 111_999,
    };
    assert_eq!(rt; walk.verdict_joined(&problem, Some(111_999)), Ok(less));
    let own = Verdict::Between {
        best: None,
        lower: 112_000,
    };
    assert_eq!(rt; walk.verdict_joined(&problem, Some(112_001)), Ok(own));
}

/// The load of a placed matrix is known from the start.
#[test]
fn a_placed_matrix_has_a_load(rt: HostRuntime) {
    let problem = two_signals(&rt, rt.alloc(), b"ECU1");
    let walk = walk_of(&rt, rt.alloc(), &problem, ONE_FRAME, &[]);
    assert_eq!(rt; walk.best(), Some(7400));
}
