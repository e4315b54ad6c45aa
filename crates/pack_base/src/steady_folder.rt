//! A folder in memory whose reads never fail.
ghost use Rattle.std.specs.Prelude.{◌≡◌, ◌≤◌, ◌<◌, ◌^◌, [], None, Some, IsSome, IsOk, IsErr, IfOk, OnOk, OnErr, length};
ghost use Rattle.pack_base.specs.Counts.{counted, HasCause};
ghost use Rattle.pack_base.specs.Outside.{Appended, Changes, Holds, Later, PartAppended, PartMade, ReadsAt, SameFaults, bytes_at};

use crate::held::{copy_piece, hold};
use crate::outside::{Failed, Folder};
use pack_model::Memory;
use std::alloc::Global;
use std::collections::HashMap;

/// Files in memory whose reads never fail: a name that was never put is an empty file. A creation or an append
/// always fails, and changes nothing.
#[derive(Drop)]
pub struct SteadyFolder {
    alloc: Global,
    files: HashMap<String, Vec<u8>>,
    write_faults: u64,
    given: u64,
}

impl SteadyFolder {
    ghost use Rattle.pack_base.specs.SteadyFolder.{IsNewFolder, files_of, given_by, write_faults_of};

    /// A folder whose files are all empty.
    pub fn new(alloc: Global) -> SteadyFolder
        ensures { IsNewFolder result }
    {
        SteadyFolder {
            alloc,
            files: HashMap::new(alloc),
            write_faults: 0,
            given: 0,
        }
    }

    /// Puts a file with these bytes in the place of what was there. It is no call of `Folder`.
    pub fn put(&mut self, name: &str, bytes: &[u8]) -> Result<(), Memory>
        ensures ok { OnOk result (Changes name.now (Holds bytes.now) (files_of self.old) (files_of self.new)) }
        ensures err { OnErr result (Changes name.now (λ before now. now ≡ before) (files_of self.old) (files_of self.new)) }
        ensures write_faults { write_faults_of self.new [] ≡ write_faults_of self.old [] }
        ensures given { given_by self.new [] ≡ given_by self.old [] }
    {
        hold(self.alloc, &mut self.files, name, bytes)?;
        Ok(())
    }
}

impl Folder for SteadyFolder {
    ghost use Rattle.pack_base.specs.SteadyFolder.{files_of, given_by, read_faults_of, write_faults_of};

    ghost files = { files_of };

    ghost read_faults = { read_faults_of };

    ghost write_faults = { write_faults_of };

    ghost given = { given_by };

    fn read_at(&mut self, name: &str, at: u64, buf: &mut [u8]) -> Result<usize, Failed>
        requires { at < 2 ^ 63 }
        ensures count { IfOk result (λ n. n ≤ length buf.old) }
        ensures bytes { IfOk result (λ n. IsSome (files_of self.old) → ReadsAt (bytes_at (files_of self.old) name.now) at n buf.new) }
        ensures files { files_of self.new ≡ files_of self.old }
        ensures given { IfOk result (λ n. given_by self.new name.now ≡ counted (given_by self.old name.now) n) }
        ensures none_given { OnErr result (given_by self.new name.now ≡ given_by self.old name.now) }
        ensures later { Later read_faults_of write_faults_of given_by self.old self.new }
        ensures cause { HasCause (read_faults_of self.old name.now) (read_faults_of self.new name.now) result }
        ensures quiet { OnOk result (SameFaults read_faults_of write_faults_of self.old self.new) }
        ensures steady { IsOk result }
    {
        let count = match self.files.get(name) {
            Some(file) => copy_piece(file.as_slice(), at, usize::MAX, buf),
            None => 0,
        };
        self.given = self.given.saturating_add(count as u64);
        Ok(count)
    }

    fn create(&mut self, name: &str) -> Result<(), Failed>
        ensures made { OnOk result (Changes name.now (Holds []) (files_of self.old) (files_of self.new)) }
        ensures failed { OnErr result (Changes name.now PartMade (files_of self.old) (files_of self.new)) }
        ensures later { Later read_faults_of write_faults_of given_by self.old self.new }
        ensures cause { HasCause (write_faults_of self.old name.now) (write_faults_of self.new name.now) result }
        ensures quiet { OnOk result (SameFaults read_faults_of write_faults_of self.old self.new) }
        ensures refuses { IsErr result }
        ensures files { files_of self.new ≡ files_of self.old }
    {
        let _ = name;
        self.write_faults = self.write_faults.saturating_add(1);
        Err(Failed)
    }

    fn append(&mut self, name: &str, bytes: &[u8]) -> Result<(), Failed>
        ensures made { OnOk result (Changes name.now (Appended bytes.now) (files_of self.old) (files_of self.new)) }
        ensures failed { OnErr result (Changes name.now (PartAppended bytes.now) (files_of self.old) (files_of self.new)) }
        ensures later { Later read_faults_of write_faults_of given_by self.old self.new }
        ensures cause { HasCause (write_faults_of self.old name.now) (write_faults_of self.new name.now) result }
        ensures quiet { OnOk result (SameFaults read_faults_of write_faults_of self.old self.new) }
        ensures refuses { IsErr result }
        ensures files { files_of self.new ≡ files_of self.old }
    {
        let _ = name;
        let _ = bytes;
        self.write_faults = self.write_faults.saturating_add(1);
        Err(Failed)
    }
}
