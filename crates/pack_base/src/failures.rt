//! The calls of an object in memory that are to fail, by their numbers from 1.
ghost use Rattle.std.specs.Prelude.{◌≡◌, ◌++◌, ◌∷◌, [], ◌↔◌, None, Some, IsTrue, OnOk, OnErr};

use pack_model::Memory;
use std::alloc::Global;

/// The numbers of the calls that are to fail, the one from which all calls are to fail, and how many calls were
/// made. That count stays at 2^64 - 1.
#[derive(Drop)]
pub struct Failures {
    pub numbers: Vec<u64>,
    pub from: Option<u64>,
    pub made: u64,
}

impl Failures {
    ghost use Rattle.pack_base.specs.Failures.{IsFrom, IsNextCall, IsNextListed, earlier};

    pub fn new(alloc: Global) -> Failures
        ensures numbers { result.numbers.items ≡ [] }
        ensures from { result.from ≡ None }
        ensures made { result.made ≡ 0 }
    {
        Failures {
            numbers: Vec::new(alloc),
            from: None,
            made: 0,
        }
    }

    /// Lets the call of this number fail.
    pub fn list(&mut self, number: u64) -> Result<(), Memory>
        ensures ok { OnOk result (self.new.numbers.items ≡ self.old.numbers.items ++ number ∷ []) }
        ensures err { OnErr result (self.new.numbers.items ≡ self.old.numbers.items) }
        ensures from { self.new.from ≡ self.old.from }
        ensures made { self.new.made ≡ self.old.made }
    {
        self.numbers.push(number)?;
        Ok(())
    }

    /// Lets each call from this number on fail.
    pub fn list_from(&mut self, number: u64)
        ensures from { self.new.from ≡ Some (earlier self.old.from number) }
        ensures numbers { self.new.numbers.items ≡ self.old.numbers.items }
        ensures made { self.new.made ≡ self.old.made }
    {
        let from = match self.from {
            Some(from) => from.min(number),
            None => number,
        };
        self.from = Some(from);
    }

    /// Whether all calls from the last one on are to fail.
    fn is_from(&self) -> bool
        ensures { IsTrue result ↔ IsFrom self.now.from self.now.made }
    {
        match self.from {
            Some(from) => from <= self.made,
            None => false,
        }
    }

    /// Counts a call, and says whether it is to fail.
    pub fn next_fails(&mut self) -> bool
        ensures listed { IsTrue result ↔ IsNextListed self.old }
        ensures next { IsNextCall self.old self.new }
    {
        self.made = self.made.saturating_add(1);
        self.numbers.contains(&self.made) || self.is_from()
    }
}
