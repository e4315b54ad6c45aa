//! A folder in memory, which fails where it is told to.
ghost use Rattle.std.specs.Prelude.{
  ◌≡◌,
  ◌≤◌,
  ◌<◌,
  ◌^◌,
  ◌-◌,
  ◌↔◌,
  ◌⊎◌,
  ◌++◌,
  ◌∷◌,
  [],
  None,
  Some,
  IsSome,
  IsNone,
  IsOk,
  IsErr,
  IfOk,
  OnOk,
  OnErr,
  length,
  min,
  option_map,
};
ghost use Rattle.std.specs.Option.{option_copied};
ghost use Rattle.pack_base.specs.Counts.{counted, HasCause, Rose};
ghost use Rattle.pack_base.specs.Outside.{
  Appended,
  Changes,
  Holds,
  Later,
  PartAppended,
  PartMade,
  ReadsAt,
  SameFaults,
  bytes_at,
  file_at,
};

use crate::failures::Failures;
use crate::held::{copy_piece, hold, lengthen};
use crate::outside::{Failed, Folder};
use pack_model::Memory;
use std::alloc::Global;
use std::collections::HashMap;

/// Files in memory. Calls of `Folder` fail where `fail_at` or `fail_from` lists their number, and a read fails for
/// a name that isn't there. A creation or an append also fails for want of memory, which `refused` counts.
#[derive(Drop)]
pub struct MemFolder {
    alloc: Global,
    files: HashMap<String, Vec<u8>>,
    failures: Failures,
    read_faults: u64,
    write_faults: u64,
    given: u64,
    refused: u64,
    /// How many bytes a read gives at most.
    most: usize,
    ghost reads_give: { 1 ≤ most },
}

impl MemFolder {
    ghost use Rattle.pack_base.specs.Failures.{earlier};
    ghost use Rattle.pack_base.specs.MemFolder.{
      IsNewFolder,
      SameCounts,
      SameSettings,
      files_of,
      from_of,
      listed_of,
      most_of,
      refused_of,
    };

    /// A folder without files, whose calls all succeed so far.
    pub fn new(alloc: Global) -> MemFolder
        ensures { IsNewFolder result }
    {
        MemFolder {
            alloc,
            files: HashMap::new(alloc),
            failures: Failures::new(alloc),
            read_faults: 0,
            write_faults: 0,
            given: 0,
            refused: 0,
            most: usize::MAX,
        }
    }

    /// Puts a file with these bytes in the place of what was there. It is no call of `Folder`.
    pub fn put(&mut self, name: &str, bytes: &[u8]) -> Result<(), Memory>
        ensures ok { OnOk result (Changes name.now (Holds bytes.now) (files_of self.old) (files_of self.new)) }
        ensures err { OnErr result (Changes name.now (λ before now. now ≡ before) (files_of self.old) (files_of self.new)) }
        ensures settings { SameSettings self.old self.new }
        ensures counts { SameCounts self.old self.new }
    {
        hold(self.alloc, &mut self.files, name, bytes)?;
        Ok(())
    }

    /// Lets the call of `Folder` with this number fail, counted from 1 over its three calls.
    pub fn fail_at(&mut self, call: u64) -> Result<(), Memory>
        ensures ok { OnOk result (listed_of self.new ≡ listed_of self.old ++ call ∷ []) }
        ensures err { OnErr result (listed_of self.new ≡ listed_of self.old) }
        ensures from { from_of self.new ≡ from_of self.old }
        ensures most { most_of self.new ≡ most_of self.old }
        ensures files { files_of self.new ≡ files_of self.old }
        ensures counts { SameCounts self.old self.new }
    {
        self.failures.list(call)
    }

    /// Lets each call of `Folder` from this number on fail, counted from 1 over its three calls. It takes no memory.
    pub fn fail_from(&mut self, call: u64) -> Result<(), Memory>
        ensures ok { IsOk result }
        ensures from { from_of self.new ≡ Some (earlier (from_of self.old) call) }
        ensures listed { listed_of self.new ≡ listed_of self.old }
        ensures most { most_of self.new ≡ most_of self.old }
        ensures files { files_of self.new ≡ files_of self.old }
        ensures counts { SameCounts self.old self.new }
    {
        self.failures.list_from(call);
        Ok(())
    }

    /// Lets each `read_at` give at most so many bytes.
    pub fn short_reads(&mut self, most: usize)
        requires { 1 ≤ most }
        ensures most { most_of self.new ≡ most }
        ensures listed { listed_of self.new ≡ listed_of self.old }
        ensures from { from_of self.new ≡ from_of self.old }
        ensures files { files_of self.new ≡ files_of self.old }
        ensures counts { SameCounts self.old self.new }
    {
        self.most = most;
    }

    /// The bytes of a file, or `None` where there is none of this name.
    pub fn get(&self, name: &str) -> Option<&[u8]>
        ensures { option_copied result ≡ file_at (files_of self.now) name.now }
    {
        match self.files.get(name) {
            Some(file) => Some(file.as_slice()),
            None => None,
        }
    }

    /// How many growths were refused in its calls of `Folder`, at most 2^64 - 1.
    pub fn refused(&self) -> u64
        ensures { result ≡ refused_of self.now }
    {
        self.refused
    }
}

impl Folder for MemFolder {
    ghost use Rattle.pack_base.specs.MemFolder.{
      CallMade,
      FailsNext,
      files_of,
      given_by,
      most_of,
      read_faults_of,
      refused_of,
      write_faults_of,
    };

    ghost files = { files_of };

    ghost read_faults = { read_faults_of };

    ghost write_faults = { write_faults_of };

    ghost given = { given_by };

    fn read_at(&mut self, name: &str, at: u64, buf: &mut [u8]) -> Result<usize, Failed>
        requires { at < 2 ^ 63 }
        ensures count { IfOk result (λ n. n ≤ length buf.old) }
        ensures bytes { IfOk result (λ n. IsSome (files_of self.old) → ReadsAt (bytes_at (files_of self.old) name.now) at n buf.new) }
        ensures files { files_of self.new ≡ files_of self.old }
        ensures given { IfOk result (λ n. given_by self.new name.now ≡ counted (given_by self.old name.now) n) }
        ensures none_given { OnErr result (given_by self.new name.now ≡ given_by self.old name.now) }
        ensures later { Later read_faults_of write_faults_of given_by self.old self.new }
        ensures cause { HasCause (read_faults_of self.old name.now) (read_faults_of self.new name.now) result }
        ensures quiet { OnOk result (SameFaults read_faults_of write_faults_of self.old self.new) }

        // It gives as many bytes as there are, up to the room and the most that a read gives.
        ensures length { IfOk result (λ n. n ≡ min (length (bytes_at (files_of self.old) name.now) - at)
            (min (length buf.old) (most_of self.old))) }

        // It fails exactly at a listed call, and for a name that isn't there.
        ensures fails { IsErr result ↔ (FailsNext self.old ⊎ IsNone (file_at (files_of self.old) name.now)) }
        ensures call { CallMade self.old self.new }
        ensures refused { refused_of self.new ≡ refused_of self.old }
    {
        let fails = self.failures.next_fails();
        match self.files.get(name) {
            Some(file) if !fails => {
                let count = copy_piece(file.as_slice(), at, self.most, buf);
                self.given = self.given.saturating_add(count as u64);
                Ok(count)
            }
            _ => {
                self.read_faults = self.read_faults.saturating_add(1);
                Err(Failed)
            }
        }
    }

    fn create(&mut self, name: &str) -> Result<(), Failed>
        ensures made { OnOk result (Changes name.now (Holds []) (files_of self.old) (files_of self.new)) }
        ensures failed { OnErr result (Changes name.now PartMade (files_of self.old) (files_of self.new)) }
        ensures later { Later read_faults_of write_faults_of given_by self.old self.new }
        ensures cause { HasCause (write_faults_of self.old name.now) (write_faults_of self.new name.now) result }
        ensures quiet { OnOk result (SameFaults read_faults_of write_faults_of self.old self.new) }

        // It fails exactly at a listed call, or where a growth was refused.
        ensures listed { FailsNext self.old → IsErr result }
        ensures fails { OnErr result (FailsNext self.old ⊎ Rose (refused_of self.old) (refused_of self.new)) }
        ensures call { CallMade self.old self.new }
        ensures refused { OnOk result (refused_of self.new ≡ refused_of self.old) }
    {
        if self.failures.next_fails() {
            self.write_faults = self.write_faults.saturating_add(1);
            return Err(Failed);
        }
        match hold(self.alloc, &mut self.files, name, b"") {
            Ok(()) => Ok(()),
            Err(_) => {
                self.refused = self.refused.saturating_add(1);
                self.write_faults = self.write_faults.saturating_add(1);
                Err(Failed)
            }
        }
    }

    fn append(&mut self, name: &str, bytes: &[u8]) -> Result<(), Failed>
        ensures made { OnOk result (Changes name.now (Appended bytes.now) (files_of self.old) (files_of self.new)) }
        ensures failed { OnErr result (Changes name.now (PartAppended bytes.now) (files_of self.old) (files_of self.new)) }
        ensures later { Later read_faults_of write_faults_of given_by self.old self.new }
        ensures cause { HasCause (write_faults_of self.old name.now) (write_faults_of self.new name.now) result }
        ensures quiet { OnOk result (SameFaults read_faults_of write_faults_of self.old self.new) }

        // It fails exactly at a listed call, or where a growth was refused.
        ensures listed { FailsNext self.old → IsErr result }
        ensures fails { OnErr result (FailsNext self.old ⊎ Rose (refused_of self.old) (refused_of self.new)) }
        ensures call { CallMade self.old self.new }
        ensures refused { OnOk result (refused_of self.new ≡ refused_of self.old) }
    {
        if self.failures.next_fails() {
            self.write_faults = self.write_faults.saturating_add(1);
            return Err(Failed);
        }
        match lengthen(self.alloc, &mut self.files, name, bytes) {
            Ok(()) => Ok(()),
            Err(_) => {
                self.refused = self.refused.saturating_add(1);
                self.write_faults = self.write_faults.saturating_add(1);
                Err(Failed)
            }
        }
    }
}
