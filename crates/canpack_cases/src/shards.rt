// Marked trees, judged by several workers.
use crate::planned::FOUR_SENDERS;
use crate::runs::{CHECK, MATRIX, NAMES, NETWORK, SIGNALS, status_by, status_of};
use pack_base::{Failed, Folder, Gate, MemFolder, MemSink, SteadyFolder};
use std::alloc::{AllocError, Global};
use std::sync::atomic::{AtomicU64, Ordering};
use std::test::Fail;

/// A gate that holds the first shard until a second one begins, for so many turns.
#[derive(Drop)]
struct Pair {
    turns: u64,
    begun: AtomicU64,
    /// 1 where the first shard saw a second one.
    met: AtomicU64,
}

impl Pair {
    fn of(turns: u64) -> Pair {
        Pair {
            turns,
            begun: AtomicU64::new(0),
            met: AtomicU64::new(0),
        }
    }
}

impl Gate for Pair {
    fn enter(&self, _shard: usize) {
        if self.begun.fetch_add(1, Ordering::SeqCst) > 0 {
            return;
        }
        for _ in 0..self.turns {
            if self.begun.load(Ordering::SeqCst) > 1 {
                self.met.store(1, Ordering::SeqCst);
                return;
            }
        }
    }
}

/// The trees of four lemmas are four shards: one worker judges them in turn, of eight two at once.
#[test]
fn shards_side_by_side(rt: HostRuntime) -> Result<(), Fail> {
    let mut folder = MemFolder::new(rt.alloc());
    folder.put(NAMES[0], NETWORK)?;
    folder.put(NAMES[1], FOUR_SENDERS)?;
    let words = [
        "plan", NAMES[0], NAMES[1], NAMES[2], NAMES[3], "100000", "1",
    ];
    let mut out = MemSink::new(rt.alloc());
    assert_eq!(rt; status_of(&rt, &words, &mut folder, &mut out)?, 0);
    for (workers, turns, met) in [("1", 1, 0), ("8", 100_000_000, 1)] {
        let mut words = CHECK;
        words[5] = workers;
        let gate = Pair::of(turns);
        let mut out = MemSink::new(rt.alloc());
        assert_eq!(rt; status_by(&rt, &words, &mut folder, &mut out, &gate)?, 0);
        assert_eq!(rt; out.said(), b"best 405600/8000000\n".as_slice());
        assert_eq!(rt; gate.met.load(Ordering::SeqCst), met);
    }
    Ok(())
}

/// A folder that notes the greatest place of a certificate that a read asked for.
#[derive(Drop)]
struct Noting<'a> {
    inner: SteadyFolder,
    greatest: &'a AtomicU64,
}

impl Folder for Noting<'_> {
    ghost use Rattle.pack_base.specs.SteadyFolder.{files_of, given_by, read_faults_of, write_faults_of};

    ghost files = { λ s. files_of s.inner };

    ghost read_faults = { λ s. read_faults_of s.inner };

    ghost write_faults = { λ s. write_faults_of s.inner };

    ghost given = { λ s. given_by s.inner };

    fn read_at(&mut self, name: &str, at: u64, buf: &mut [u8]) -> Result<usize, Failed> {
        if name == NAMES[3] {
            let _before = self.greatest.fetch_max(at, Ordering::SeqCst);
        }
        self.inner.read_at(name, at, buf)
    }

    fn create(&mut self, name: &str) -> Result<(), Failed> {
        self.inner.create(name)
    }

    fn append(&mut self, name: &str, bytes: &[u8]) -> Result<(), Failed> {
        self.inner.append(name, bytes)
    }
}

/// A gate that keeps what was the greatest place when a shard first entered it, and 1 more.
#[derive(Drop)]
struct First<'a> {
    greatest: &'a AtomicU64,
    seen: AtomicU64,
}

impl Gate for First<'_> {
    fn enter(&self, _shard: usize) {
        if self.seen.load(Ordering::SeqCst) == 0 {
            let greatest = self.greatest.load(Ordering::SeqCst);
            self.seen
                .store(greatest.saturating_add(1), Ordering::SeqCst);
        }
    }
}

/// A certificate of more than 10 MiB: evidence that shows nothing, after the tree of a lemma.
fn long_text(alloc: Global) -> Result<Vec<u8>, AllocError> {
    let mut text = Vec::from_slice(
        alloc,
        b"canpack certificate 1\nkind best\nframe 7400 0\nlemma 0 0\nshard\nb\njoin\nmain\ni 1\nf 1\nlong 0",
    )?;
    for _ in 0..5_300_000 {
        text.extend_from_slice(b" 1")?;
    }
    text.extend_from_slice(b"\nend\n")?;
    Ok(text)
}

/// The shard of the lemma is judged before more of the text is read.
#[test]
fn shards_before_the_main_tree(rt: HostRuntime) -> Result<(), Fail> {
    let greatest = AtomicU64::new(0);
    let mut folder = Noting {
        inner: SteadyFolder::new(rt.alloc()),
        greatest: &greatest,
    };
    let cert = long_text(rt.alloc())?;
    for (name, text) in NAMES
        .iter()
        .zip(&[NETWORK, SIGNALS, MATRIX, cert.as_slice()])
    {
        folder.inner.put(name, text)?;
    }
    let gate = First {
        greatest: &greatest,
        seen: AtomicU64::new(0),
    };
    let mut out = MemSink::new(rt.alloc());
    assert_eq!(rt; status_by(&rt, &CHECK, &mut folder, &mut out, &gate)?, 5);
    assert_eq!(rt; out.said(), b"rejected tree\n".as_slice());
    let seen = gate.seen.load(Ordering::SeqCst);
    assert!(rt; seen > 0);
    assert!(rt; seen < 1 << 20);
    Ok(())
}
