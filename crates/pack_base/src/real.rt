//! The real files and the standard output. No clause says what they hold. What moves between them and a buffer is
//! said over any reader and writer.
ghost use Rattle.std.specs.Prelude.{◌≡◌, ◌≢◌, ◌≤◌, ℕ, List, None, IfOk, IfErr, OnOk, length};
ghost use Rattle.std.specs.IoError.{error_kind};
ghost use Rattle.std.specs.Io.KnownBytes.{Appends, ReadConsumes};

use crate::outside::{Failed, Folder, Sink};
use std::fs::{OpenFile, OpenOptions};
use std::io::{ErrorKind, Read, Seek, SeekFrom, Write};
use std::rt::Files;
use std::{fs, io};

/// The files of the system, by their paths. It tells no content.
#[derive(Drop)]
pub struct RealFolder<R: Files + Drop> {
    rt: R,
    read_faults: u64,
    write_faults: u64,
    given: u64,
}

impl<R: Files + Drop> RealFolder<R> {
    /// The files that a runtime reaches, without faults so far.
    pub fn new(rt: R) -> RealFolder<R>
        ensures read_faults { result.read_faults ≡ 0 }
        ensures write_faults { result.write_faults ≡ 0 }
        ensures given { result.given ≡ 0 }
    {
        RealFolder {
            rt,
            read_faults: 0,
            write_faults: 0,
            given: 0,
        }
    }
}

/// One read, tried again where a signal interrupts it.
pub(crate) fn read_some<R: Read>(reader: &mut R, buf: &mut [u8]) -> io::Result<usize>
    ensures count { IfOk result (λ n. n ≤ length buf.old) }
    ensures bytes { ReadConsumes (R.remaining reader.old) (R.remaining reader.new) result buf.new }
    ensures retried { IfErr result (λ e. error_kind e ≢ ErrorKind.Interrupted) }
{
    for _ in 0..u64::MAX {
        match reader.read(buf) {
            Ok(count) => return Ok(count),
            Err(e) => {
                if e.kind() != ErrorKind::Interrupted {
                    return Err(e);
                }
            }
        }
    }
    Err(io::Error::from(ErrorKind::TimedOut))
}

/// Writes all bytes, in as many writes as it takes, and then what the writer held back.
fn write_whole<W: Write>(writer: &mut W, bytes: &[u8]) -> io::Result<()>
    ensures { OnOk result (Appends (W.contents writer.old) (W.contents writer.new) bytes.now) }
{
    writer.write_all(bytes)?;
    writer.flush()
}

/// Writes what a file took through to its medium, so that an error of that is seen before the file is closed.
/// A pipe or a device has no such call.
fn write_through<F: OpenFile>(file: &F) -> io::Result<()> {
    if file.metadata()?.is_file() {
        file.sync_all()?;
    }
    Ok(())
}

fn read_piece<R: Files>(rt: &R, name: &str, at: u64, buf: &mut [u8]) -> io::Result<usize>
    ensures { IfOk result (λ n. n ≤ length buf.old) }
{
    let mut file = fs::open(rt, name)?;
    file.seek(SeekFrom::Start(at))?;
    read_some(&mut file, buf)
}

fn create_empty<R: Files>(rt: &R, name: &str) -> io::Result<()> {
    let file = fs::create(rt, name)?;
    write_through(&file)
}

fn append_all<R: Files>(rt: &R, name: &str, bytes: &[u8]) -> io::Result<()> {
    let mut options = OpenOptions::new();
    options.append(true).create(true);
    let mut file = options.open(rt, name)?;
    write_whole(&mut file, bytes)?;
    write_through(&file)
}

impl<R: Files + Drop> Folder for RealFolder<R> {
    ghost files = { λ folder. None };

    ghost read_faults = { λ folder name. folder.read_faults };

    ghost write_faults = { λ folder name. folder.write_faults };

    ghost given = { λ folder name. folder.given };

    fn read_at(&mut self, name: &str, at: u64, buf: &mut [u8]) -> Result<usize, Failed> {
        match read_piece(&self.rt, name, at, buf) {
            Ok(count) => {
                self.given = self.given.saturating_add(count as u64);
                Ok(count)
            }
            Err(_) => {
                self.read_faults = self.read_faults.saturating_add(1);
                Err(Failed)
            }
        }
    }

    fn create(&mut self, name: &str) -> Result<(), Failed> {
        match create_empty(&self.rt, name) {
            Ok(()) => Ok(()),
            Err(_) => {
                self.write_faults = self.write_faults.saturating_add(1);
                Err(Failed)
            }
        }
    }

    fn append(&mut self, name: &str, bytes: &[u8]) -> Result<(), Failed> {
        match append_all(&self.rt, name, bytes) {
            Ok(()) => Ok(()),
            Err(_) => {
                self.write_faults = self.write_faults.saturating_add(1);
                Err(Failed)
            }
        }
    }
}

/// The standard output. It doesn't tell what was said.
#[derive(Drop)]
pub struct RealOut<R: Print + Drop> {
    rt: R,
    faults: u64,
}

impl<R: Print + Drop> RealOut<R> {
    /// The standard output of a runtime, without faults so far.
    pub fn new(rt: R) -> RealOut<R>
        ensures { result.faults ≡ 0 }
    {
        RealOut { rt, faults: 0 }
    }
}

fn write_out<R: Print>(rt: &R, bytes: &[u8]) -> io::Result<()> {
    let mut out = io::writer(rt);
    write_whole(&mut out, bytes)
}

impl<R: Print + Drop> Sink for RealOut<R> {
    ghost said = { λ out. None };

    ghost faults = { λ out. out.faults };

    fn say(&mut self, bytes: &[u8]) -> Result<(), Failed> {
        match write_out(&self.rt, bytes) {
            Ok(()) => Ok(()),
            Err(_) => {
                self.faults = self.faults.saturating_add(1);
                Err(Failed)
            }
        }
    }
}
