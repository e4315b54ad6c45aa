//! Files in memory, by name.
ghost use Rattle.std.specs.Prelude.{◌≡◌, ◌≤◌, ◌-◌, Some, OnOk, OnErr, length, min};
ghost use Rattle.pack_base.specs.Held.{IsSame, held_at};
ghost use Rattle.pack_base.specs.Outside.{Appended, Changes, Holds, ReadsAt};

use std::alloc::{AllocError, Global};
use std::collections::HashMap;

/// Copies the bytes of a file from a place on into the front of a buffer, at most so many, and answers how many.
pub fn copy_piece(file: &[u8], at: u64, most: usize, buf: &mut [u8]) -> usize
    requires { 1 ≤ most }
    ensures count { result ≡ min (length file.now - at) (min (length buf.old) most) }
    ensures bytes { ReadsAt file.now at result buf.new }
{
    let length = file.len() as u64;
    if at >= length {
        return 0;
    }
    let rest = &file[at as usize..];
    let count = rest.len().min(buf.len().min(most));
    buf[..count].copy_from_slice(&rest[..count]);
    count
}

/// Makes a name's file hold these bytes.
pub fn hold(
    alloc: Global,
    files: &mut HashMap<String, Vec<u8>>,
    name: &str,
    bytes: &[u8],
) -> Result<(), AllocError>
    ensures ok { OnOk result (Changes name.now (Holds bytes.now) (Some (held_at files.old)) (Some (held_at files.new))) }
    ensures err { OnErr result (IsSame files.old files.new) }
{
    let name = String::from_str(alloc, name)?;
    let bytes = Vec::from_slice(alloc, bytes)?;
    files.insert(name, bytes)?;
    Ok(())
}

/// Puts bytes at the end of a name's file; one that is missing counts as empty.
pub fn lengthen(
    alloc: Global,
    files: &mut HashMap<String, Vec<u8>>,
    name: &str,
    bytes: &[u8],
) -> Result<(), AllocError>
    ensures ok { OnOk result (Changes name.now (Appended bytes.now) (Some (held_at files.old)) (Some (held_at files.new))) }
    ensures err { OnErr result (IsSame files.old files.new) }
{
    match files.get_mut(name) {
        Some(file) => {
            file.extend_from_slice(bytes)?;
            Ok(())
        }
        None => hold(alloc, files, name, bytes),
    }
}
