//! What canpack sees of the outside: files by name, a place for its lines, and a gate that workers pass.
ghost use Rattle.std.specs.Prelude.{◌≡◌, ◌≤◌, ◌<◌, ◌^◌, [], List, ℕ, Option, IsSome, IfOk, OnOk, OnErr, length};
ghost use Rattle.pack_base.specs.Counts.{counted, HasCause};
ghost use Rattle.pack_base.specs.Outside.{
  Appended,
  Changes,
  Files,
  Holds,
  Later,
  PartAppended,
  PartMade,
  ReadsAt,
  SameFaults,
  SaidPart,
  and_said,
  bytes_at,
};

/// The outside failed. It is answered only by an object of the outside whose count of faults rose in the call.
#[derive(Clone, Copy, Debug, PartialEq, Eq)]
pub struct Failed;

/// Files by name. A folder counts its faults and the bytes that it gave for each name, or for all names together.
/// A count of faults rises in no call that answers `Ok`.
pub trait Folder {
    /// The files by name, where the folder tells them.
    ghost files: { Self → Files };

    /// How often a read of a name failed.
    ghost read_faults: { Self → List ℕ → ℕ };

    /// How often a creation or an append of a name failed.
    ghost write_faults: { Self → List ℕ → ℕ };

    /// How many bytes the reads of a name gave.
    ghost given: { Self → List ℕ → ℕ };

    /// Reads bytes of a file from a place on into the front of `buf`, and answers how many. It answers 0 only for
    /// an empty `buf` and at the end of the file.
    fn read_at(&mut self, name: &str, at: u64, buf: &mut [u8]) -> Result<usize, Failed>
        requires { at < 2 ^ 63 }
        ensures count { IfOk result (λ n. n ≤ length buf.old) }
        ensures bytes { IfOk result (λ n. IsSome (files self.old) → ReadsAt (bytes_at (files self.old) name.now) at n buf.new) }
        ensures files { files self.new ≡ files self.old }
        ensures given { IfOk result (λ n. given self.new name.now ≡ counted (given self.old name.now) n) }
        ensures none_given { OnErr result (given self.new name.now ≡ given self.old name.now) }
        ensures later { Later read_faults write_faults given self.old self.new }
        ensures cause { HasCause (read_faults self.old name.now) (read_faults self.new name.now) result }
        ensures quiet { OnOk result (SameFaults read_faults write_faults self.old self.new) };

    /// Makes a file empty. After a failure it is as before, or empty.
    fn create(&mut self, name: &str) -> Result<(), Failed>
        ensures made { OnOk result (Changes name.now (Holds []) (files self.old) (files self.new)) }
        ensures failed { OnErr result (Changes name.now PartMade (files self.old) (files self.new)) }
        ensures later { Later read_faults write_faults given self.old self.new }
        ensures cause { HasCause (write_faults self.old name.now) (write_faults self.new name.now) result }
        ensures quiet { OnOk result (SameFaults read_faults write_faults self.old self.new) };

    /// Puts bytes at a file's end; one that is missing counts as empty. After a failure a front of them may be there.
    fn append(&mut self, name: &str, bytes: &[u8]) -> Result<(), Failed>
        ensures made { OnOk result (Changes name.now (Appended bytes.now) (files self.old) (files self.new)) }
        ensures failed { OnErr result (Changes name.now (PartAppended bytes.now) (files self.old) (files self.new)) }
        ensures later { Later read_faults write_faults given self.old self.new }
        ensures cause { HasCause (write_faults self.old name.now) (write_faults self.new name.now) result }
        ensures quiet { OnOk result (SameFaults read_faults write_faults self.old self.new) };
}

/// A place for the lines that the program says. Its count of faults rises in no call that answers `Ok`.
pub trait Sink {
    /// All that was said, where the sink tells it.
    ghost said: { Self → Option (List ℕ) };

    /// How often it failed.
    ghost faults: { Self → ℕ };

    /// Puts bytes behind what was said. After a failure a front of them may have been said.
    fn say(&mut self, bytes: &[u8]) -> Result<(), Failed>
        ensures said { OnOk result (said self.new ≡ and_said (said self.old) bytes.now) }
        ensures part { OnErr result (SaidPart bytes.now (said self.old) (said self.new)) }
        ensures later { faults self.old ≤ faults self.new }
        ensures cause { HasCause (faults self.old) (faults self.new) result }
        ensures quiet { OnOk result (faults self.new ≡ faults self.old) };
}

/// A gate that each worker enters once as it begins a shard.
pub trait Gate {
    /// Is passed at the shard's place in the certificate, from 0.
    fn enter(&self, shard: usize);
}

/// A gate that is always open.
#[derive(Clone, Copy, Debug)]
pub struct OpenGate;

impl Gate for OpenGate {
    fn enter(&self, _shard: usize) {}
}
