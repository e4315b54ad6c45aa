//! Each fake once, the reading of a whole file, and the real folder on a real file.
use super::*;
use std::alloc::{AllocError, Global};
use std::io::Read;
use std::test::Fail;
use std::{fs, io};

fn holds(folder: &MemFolder, name: &str, bytes: &[u8]) -> bool {
    match folder.get(name) {
        Some(held) => held == bytes,
        None => false,
    }
}

#[test]
fn files_in_memory(rt: HostRuntime) -> Result<(), Fail> {
    let mut folder = MemFolder::new(rt.alloc());
    folder.put("n", b"abc").map_err(|_| "memory")?;
    folder.fail_at(3).map_err(|_| "memory")?;
    assert!(rt; holds(&folder, "n", b"abc"));
    assert!(rt; folder.get("m").is_none());
    let mut piece = [0u8; 2];
    assert_eq!(rt; folder.read_at("n", 1, &mut piece), Ok(2));
    assert_eq!(rt; piece.as_slice(), b"bc".as_slice());
    assert_eq!(rt; folder.append("n", b"de"), Ok(()));
    assert_eq!(rt; folder.append("n", b"fg"), Err(Failed), "the third call");
    assert_eq!(rt; folder.append("n", b"h"), Ok(()));
    assert!(rt; holds(&folder, "n", b"abcdeh"));
    assert_eq!(rt; folder.create("n"), Ok(()));
    assert_eq!(rt; folder.append("m", b"x"), Ok(()));
    assert!(rt; holds(&folder, "n", b""));
    assert!(rt; holds(&folder, "m", b"x"));
    assert_eq!(rt; folder.read_at("none", 0, &mut piece), Err(Failed));
    assert_eq!(rt; folder.refused(), 0);
    Ok(())
}

#[test]
fn short_reads_and_a_front_of_calls(rt: HostRuntime) -> Result<(), Fail> {
    let mut folder = MemFolder::new(rt.alloc());
    folder.put("n", b"abc").map_err(|_| "memory")?;
    folder.short_reads(1);
    folder.fail_from(3).map_err(|_| "memory")?;
    let mut piece = [0u8; 2];
    for want in [Ok(1), Ok(1), Err(Failed), Err(Failed)] {
        assert_eq!(rt; folder.read_at("n", 1, &mut piece), want);
    }
    Ok(())
}

fn sevens(alloc: Global, count: usize) -> Result<Vec<u8>, AllocError> {
    vec![in alloc; 7u8; count]
}

fn read_up_to(
    alloc: Global,
    folder: &mut MemFolder,
    name: &str,
    limit: u32,
) -> Result<Vec<u8>, ReadWhole> {
    read_whole(alloc, folder, name, u64::from(limit))
}

#[test]
fn whole_files(rt: HostRuntime) -> Result<(), Fail> {
    let alloc = rt.alloc();
    let mut folder = MemFolder::new(alloc);
    let text = sevens(alloc, 70000)?;
    folder.put("n", &text).map_err(|_| "memory")?;
    folder.fail_at(9).map_err(|_| "memory")?;
    for (limit, size) in [(70000, Some(70000)), (100000, Some(70000)), (69999, None)] {
        match read_up_to(alloc, &mut folder, "n", limit) {
            Ok(read) => assert_eq!(rt; Some(read.len()), size, "at {limit}"),
            Err(e) => assert!(rt; size.is_none() && e == ReadWhole::TooLarge, "at {limit}"),
        }
    }
    for (name, want) in [("n", ReadWhole::ReadFault), ("m", ReadWhole::ReadFault)] {
        match read_up_to(alloc, &mut folder, name, 70000) {
            Ok(_) => assert!(rt; false, "the second read fails, and there is no m"),
            Err(e) => assert_eq!(rt; e, want),
        }
    }
    Ok(())
}

#[test]
fn lines_in_memory(rt: HostRuntime) -> Result<(), Fail> {
    let mut sink = MemSink::new(rt.alloc());
    sink.fail_at(2).map_err(|_| "memory")?;
    assert_eq!(rt; sink.say(b"one\n"), Ok(()));
    assert_eq!(rt; sink.say(b"two\n"), Err(Failed));
    assert_eq!(rt; sink.say(b"three\n"), Ok(()));
    assert_eq!(rt; sink.said(), b"one\nthree\n".as_slice());
    assert_eq!(rt; sink.refused(), 0);
    Ok(())
}

#[test]
fn steady_files_and_no_lines(rt: HostRuntime) -> Result<(), Fail> {
    let mut folder = SteadyFolder::new(rt.alloc());
    folder.put("n", b"abc").map_err(|_| "memory")?;
    let mut piece = [0u8; 8];
    for (name, at, count) in [("n", 0, 3), ("n", 2, 1), ("n", 3, 0), ("none", 0, 0)] {
        assert_eq!(rt;
            folder.read_at(name, at, &mut piece),
            Ok(count),
            "{name} from {at}"
        );
    }
    assert_eq!(rt; folder.create("n"), Err(Failed));
    assert_eq!(rt; folder.append("n", b"d"), Err(Failed));
    assert_eq!(rt; NullSink.say(b"nothing"), Ok(()));
    OpenGate.enter(0);
    Ok(())
}

// A reader that signals interrupt so many times before it gives a byte.
#[derive(Drop)]
struct Interrupted(u8);

impl Read for Interrupted {
    fn read(&mut self, buf: &mut [u8]) -> io::Result<usize> {
        if self.0 > 0 {
            self.0 -= 1;
            return Err(io::Error::from(io::ErrorKind::Interrupted));
        }
        match buf.first_mut() {
            Some(first) => {
                *first = 7;
                Ok(1)
            }
            None => Ok(0),
        }
    }
}

#[test]
fn interrupted_reads(rt: HostRuntime) -> Result<(), Fail> {
    let mut piece = [0u8; 2];
    assert_eq!(rt; real::read_some(&mut Interrupted(3), &mut piece)?, 1);
    assert_eq!(rt; piece.as_slice(), [7, 0].as_slice());
    Ok(())
}

#[test]
fn real_files(rt: HostRuntime) -> Result<(), Fail> {
    let name = "pack_base_real_files";
    let mut folder = RealFolder::new(rt.clone()?);
    assert_eq!(rt; folder.create(name), Ok(()));
    assert_eq!(rt; folder.append(name, b"abc"), Ok(()));
    assert_eq!(rt; folder.append(name, b"de"), Ok(()));
    let mut piece = [0u8; 8];
    assert_eq!(rt; folder.read_at(name, 1, &mut piece), Ok(4));
    assert_eq!(rt; folder.read_at(name, 5, &mut piece), Ok(0));
    fs::remove_file(&rt, name)?;
    assert_eq!(rt; folder.read_at(name, 0, &mut piece), Err(Failed));
    assert_eq!(rt; folder.create("no such folder/x"), Err(Failed));
    let mut out = RealOut::new(rt.clone()?);
    assert_eq!(rt; out.say(b"said\n"), Ok(()));
    Ok(())
}

#[test]
fn real_file_over_a_longer_one(rt: HostRuntime) -> Result<(), Fail> {
    let name = "pack_base_real_file_over_a_longer_one";
    let mut folder = RealFolder::new(rt.clone()?);
    for bytes in [b"abcde".as_slice(), b"fg".as_slice()] {
        assert_eq!(rt; folder.create(name), Ok(()));
        assert_eq!(rt; folder.append(name, bytes), Ok(()));
    }
    assert_eq!(rt; fs::read(&rt, name)?.as_slice(), b"fg".as_slice());
    fs::remove_file(&rt, name)?;
    Ok(())
}
