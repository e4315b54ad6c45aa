use super::*;
use pack_base::{Failed, Folder, MemFolder, SteadyFolder};
use std::alloc::{AllocError, Global};
use std::test::Fail;

fn are_shared<T: Send + Sync>() {}

#[test]
fn read_and_written(rt: HostRuntime) -> Result<(), Fail> {
    are_shared::<Cert>();
    are_shared::<Event>();
    are_shared::<CertFeed>();
    for (plain, marked) in [
        (
            b"canpack certificate 1\nkind placed\nend\n".as_slice(),
            b"canpack certificate 1\nkind placed\nend\n".as_slice(),
        ),
        (
            b"canpack certificate 1\nkind timed\nframe 7400 0\nend\n".as_slice(),
            b"canpack certificate 1\nkind timed\nframe 7400 0\nend\n".as_slice(),
        ),
        (
            b"canpack certificate 1\nkind best\nframe 7000 0\nmain\ni 1\nb\nend\n".as_slice(),
            b"canpack certificate 1\nkind best\nframe 7000 0\nmain\ni 1\nb\nend\n".as_slice(),
        ),
        (
            b"canpack certificate 1\nkind none\nmain\ni 1\nf 3\nlate 0 0 1 / 0\nlong 127 5 18446744073709551615\nover 1\nend\n".as_slice(),
            b"canpack certificate 1\nkind none\nmain\ni 1\nf 3\nlate 0 0 1 / 0\nlong 127 5 18446744073709551615\nover 1\nend\n".as_slice(),
        ),
        (
            b"canpack certificate 1\nkind open\nframe 14000 7000\nframe 14000 7000\nlemma 255 340282366920938463463374607431768211455\ni 1\nb\nmain\ni 1\ni 1\ni 1\ni 2\no\ni 1\nf 0\nend\n".as_slice(),
            b"canpack certificate 1\nkind open\nframe 14000 7000\nframe 14000 7000\nlemma 255 340282366920938463463374607431768211455\nshard\ni 1\nb\njoin\nmain\ni 1\ni 1\ni 1\nshard\ni 2\no\ni 1\nf 0\njoin\nend\n".as_slice(),
        ),
    ] {
        let cert = read_cert(rt.alloc(), plain)?;
        assert_eq!(rt; write_cert(rt.alloc(), &cert, false)?.as_slice(), plain);
        assert_eq!(rt; write_cert(rt.alloc(), &cert, true)?.as_slice(), marked);
        let again = read_cert(rt.alloc(), marked)?;
        assert_eq!(rt; write_cert(rt.alloc(), &again, false)?.as_slice(), plain);
    }
    Ok(())
}

#[test]
fn refused(rt: HostRuntime) {
    for (text, fault) in [
        (b"".as_slice(), CertFault::Cut),
        (
            b"canpack certificate 1\nkind timed\nframe 07 0\n".as_slice(),
            CertFault::BadLine(3),
        ),
        (
            b"canpack certificate 1\nkind timed\nframe 18446744073709551616 0\n".as_slice(),
            CertFault::BadLine(3),
        ),
        (
            b"canpack certificate 1\nkind placed\nend\n ".as_slice(),
            CertFault::BadLine(4),
        ),
        (
            b"canpack certificate 1\nkind placed\nend".as_slice(),
            CertFault::Cut,
        ),
        (
            b"canpack certificate 1\nkind open\nmain\nshard\nshard\no\n".as_slice(),
            CertFault::BadLine(5),
        ),
        (
            b"canpack certificate 1\nkind open\nmain\nshard\ni 1\no\nend\n".as_slice(),
            CertFault::BadLine(7),
        ),
        (
            b"canpack certificate 1\nkind best\nmain\ni 2\nb\nend\n".as_slice(),
            CertFault::BadLine(6),
        ),
        (
            b"canpack certificate 1\nkind none\nlemma 256 0\n".as_slice(),
            CertFault::BadLine(3),
        ),
    ] {
        assert_eq!(rt; read_cert(rt.alloc(), text).err(), Some(fault));
    }
}

// A certificate with so many inner nodes on its path.
fn deep(alloc: Global, levels: u64) -> Result<Vec<u8>, AllocError> {
    let mut text = Vec::from_slice(alloc, b"canpack certificate 1\nkind best\nmain\n")?;
    for _ in 0..levels {
        text.extend_from_slice(b"i 1\n")?;
    }
    text.extend_from_slice(b"b\nend\n")?;
    Ok(text)
}

#[test]
fn deepest(rt: HostRuntime) -> Result<(), Fail> {
    let text = deep(rt.alloc(), 128)?;
    let cert = read_cert(rt.alloc(), text.as_slice())?;
    assert_eq!(rt;
        write_cert(rt.alloc(), &cert, false)?.as_slice(),
        text.as_slice()
    );
    let text = deep(rt.alloc(), 129)?;
    assert_eq!(rt;
        read_cert(rt.alloc(), text.as_slice()).err(),
        Some(CertFault::BadLine(132))
    );
    Ok(())
}

/// The certificate of two signals in one frame.
const TWO_SIGNALS: &[u8] = b"canpack certificate 1\nkind best\nframe 7400 0\nmain\ni 1\nb\nend\n";

// Whether `TWO_SIGNALS` has this event at this place.
fn is_there(place: usize, event: &Event) -> bool {
    match event {
        Event::Head(kind) => place == 0 && *kind == Kind::KindBest,
        Event::FrameOf(frame) => {
            place == 1 && frame.busy == 7400 && frame.queue.as_slice() == [0u64].as_slice()
        }
        Event::Main => place == 2,
        Event::Node(count) => place == 3 && *count == 1,
        Event::BoundLeaf => place == 4,
        Event::Finish => place == 5,
        _ => false,
    }
}

// How many events of `TWO_SIGNALS` a file gives, and the fault after them, if there is one.
fn follow(alloc: Global, folder: &mut MemFolder, name: &str) -> (usize, Option<FeedFault>) {
    let Ok(mut feed) = CertFeed::new(alloc) else {
        return (0, Some(FeedFault::Memory));
    };
    for place in 0..100 {
        if feed.ended() {
            return (place, None);
        }
        match feed.next(folder, name) {
            Ok(event) => {
                if !is_there(place, &event) {
                    return (place, None);
                }
            }
            Err(fault) => return (place, Some(fault)),
        }
    }
    (100, None)
}

#[test]
fn in_one_pass(rt: HostRuntime) -> Result<(), Fail> {
    for short in [false, true] {
        let mut folder = MemFolder::new(rt.alloc());
        folder.put("whole", TWO_SIGNALS).map_err(|_| "memory")?;
        folder
            .put("cut", &TWO_SIGNALS[..TWO_SIGNALS.len() - 2])
            .map_err(|_| "memory")?;
        if short {
            folder.short_reads(1);
        }
        assert_eq!(rt; follow(rt.alloc(), &mut folder, "whole"), (6, None));
        assert_eq!(rt;
            follow(rt.alloc(), &mut folder, "cut"),
            (5, Some(FeedFault::Cut))
        );
    }
    Ok(())
}

/// A folder that notes the greatest place that a read asked for.
#[derive(Drop)]
struct Noting {
    inner: SteadyFolder,
    greatest: u64,
}

impl Folder for Noting {
    ghost use Rattle.pack_base.specs.SteadyFolder.{files_of, given_by, read_faults_of, write_faults_of};

    ghost files = { λ s. files_of s.inner };

    ghost read_faults = { λ s. read_faults_of s.inner };

    ghost write_faults = { λ s. write_faults_of s.inner };

    ghost given = { λ s. given_by s.inner };

    fn read_at(&mut self, name: &str, at: u64, buf: &mut [u8]) -> Result<usize, Failed> {
        self.greatest = self.greatest.max(at);
        self.inner.read_at(name, at, buf)
    }

    fn create(&mut self, name: &str) -> Result<(), Failed> {
        self.inner.create(name)
    }

    fn append(&mut self, name: &str, bytes: &[u8]) -> Result<(), Failed> {
        self.inner.append(name, bytes)
    }
}

// A certificate of 10 MiB that isn't whole.
fn long_text(alloc: Global) -> Result<Vec<u8>, AllocError> {
    let mut text = Vec::from_slice(alloc, b"canpack certificate 1\nkind open\n")?;
    for _ in 0..806_600 {
        text.extend_from_slice(b"frame 7400 0\n")?;
    }
    Ok(text)
}

#[test]
fn first_event_of_a_long_text(rt: HostRuntime) -> Result<(), Fail> {
    let text = long_text(rt.alloc())?;
    let mut folder = Noting {
        inner: SteadyFolder::new(rt.alloc()),
        greatest: 0,
    };
    folder.inner.put("c", &text).map_err(|_| "memory")?;
    let mut feed = CertFeed::new(rt.alloc()).map_err(|_| "memory")?;
    let event = feed.next(&mut folder, "c");
    assert!(rt; matches!(event, Ok(Event::Head(Kind::KindBetween))));
    assert!(rt; folder.greatest < 1 << 20);
    assert!(rt; feed.unjudged() < 65536);
    assert_eq!(rt; feed.depth(), 0);
    Ok(())
}
