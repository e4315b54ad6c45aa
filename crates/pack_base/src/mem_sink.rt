//! A sink in memory, which fails where it is told to.
ghost use Rattle.std.specs.Prelude.{◌≡◌, ◌≤◌, ◌⊎◌, ◌++◌, ◌∷◌, [], Some, IsErr, OnOk, OnErr};
ghost use Rattle.pack_base.specs.Counts.{HasCause, Rose};
ghost use Rattle.pack_base.specs.Outside.{SaidPart, and_said};

use crate::failures::Failures;
use crate::outside::{Failed, Sink};
use pack_model::Memory;
use std::alloc::Global;

/// Keeps what was said in memory. A call of `say` fails where `fail_at` lists its number, and for want of memory,
/// which `refused` counts.
#[derive(Drop)]
pub struct MemSink {
    said: Vec<u8>,
    failures: Failures,
    faults: u64,
    refused: u64,
}

impl MemSink {
    ghost use Rattle.pack_base.specs.MemSink.{IsNewSink, SameButListed, listed_of, refused_of, said_to};

    /// A sink to which nothing was said, whose calls all succeed so far.
    pub fn new(alloc: Global) -> MemSink
        ensures { IsNewSink result }
    {
        MemSink {
            said: Vec::new(alloc),
            failures: Failures::new(alloc),
            faults: 0,
            refused: 0,
        }
    }

    /// Lets the call of `say` with this number fail, counted from 1.
    pub fn fail_at(&mut self, call: u64) -> Result<(), Memory>
        ensures ok { OnOk result (listed_of self.new ≡ listed_of self.old ++ call ∷ []) }
        ensures err { OnErr result (listed_of self.new ≡ listed_of self.old) }
        ensures same { SameButListed self.old self.new }
    {
        self.failures.list(call)
    }

    /// All that was said.
    pub fn said(&self) -> &[u8]
        ensures { said_to self.now ≡ Some result.now }
    {
        &self.said
    }

    /// How many growths were refused, at most 2^64 - 1.
    pub fn refused(&self) -> u64
        ensures { result ≡ refused_of self.now }
    {
        self.refused
    }
}

impl Sink for MemSink {
    ghost use Rattle.pack_base.specs.MemSink.{CallMade, FailsNext, faults_of, refused_of, said_to};

    ghost said = { said_to };

    ghost faults = { faults_of };

    fn say(&mut self, bytes: &[u8]) -> Result<(), Failed>
        ensures said { OnOk result (said_to self.new ≡ and_said (said_to self.old) bytes.now) }
        ensures part { OnErr result (SaidPart bytes.now (said_to self.old) (said_to self.new)) }
        ensures later { faults_of self.old ≤ faults_of self.new }
        ensures cause { HasCause (faults_of self.old) (faults_of self.new) result }
        ensures quiet { OnOk result (faults_of self.new ≡ faults_of self.old) }

        // It fails exactly at a listed call, or where a growth was refused.
        ensures listed { FailsNext self.old → IsErr result }
        ensures fails { OnErr result (FailsNext self.old ⊎ Rose (refused_of self.old) (refused_of self.new)) }
        ensures call { CallMade self.old self.new }
        ensures refused { OnOk result (refused_of self.new ≡ refused_of self.old) }
    {
        if self.failures.next_fails() {
            self.faults = self.faults.saturating_add(1);
            return Err(Failed);
        }
        match self.said.extend_from_slice(bytes) {
            Ok(()) => Ok(()),
            Err(_) => {
                self.refused = self.refused.saturating_add(1);
                self.faults = self.faults.saturating_add(1);
                Err(Failed)
            }
        }
    }
}
