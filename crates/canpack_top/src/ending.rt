//! How a command ends.

use crate::refusal::Refusal;
use pack_model::Memory;

/// A status that says a line.
#[derive(Clone, Copy, Debug, PartialEq, Eq)]
pub enum Status {
    /// Done, or accepted.
    Done,
    /// A text is refused.
    Refused,
    /// The acceptance rule doesn't hold.
    Rejected,
    /// No grouping can meet all deadlines.
    NoSolution,
    /// The branches of a plan are spent.
    Spent,
}

impl Status {
    ghost use Rattle.std.specs.Prelude.{◌≡◌};
    ghost use Rattle.canpack_top.specs.Ending.{number_of};

    /// Its number: 0, 4, 5, 10 or 11.
    pub fn number(self) -> u8
        ensures { result ≡ number_of self }
    {
        match self {
            Status::Done => 0,
            Status::Refused => 4,
            Status::Rejected => 5,
            Status::NoSolution => 10,
            Status::Spent => 11,
        }
    }
}

/// What a command answers: a status, and the line that is said.
#[derive(Debug, Drop)]
pub struct Answer {
    pub status: Status,
    pub line: Vec<u8>,
}

/// Why a command halts with no answer.
#[derive(Clone, Copy, Debug, PartialEq, Eq)]
pub enum Halt {
    /// A read failed, and the folder's count of read faults rose.
    ReadFault,
    /// A creation or an append failed, and the folder's count of write faults rose.
    WriteFault,
    /// Want of memory.
    Memory,
}

impl From<Memory> for Halt {
    ghost use Rattle.std.specs.Prelude.{◌≡◌};
    ghost use Rattle.canpack_top.specs.declared.ending.Halt.TheVariants as halt;

    ghost from_gives = { λ _ e. e ≡ halt.Memory };

    fn from(_e: Memory) -> Halt {
        Halt::Memory
    }
}

/// Why the reading of texts stops.
#[derive(Clone, Copy, Debug, PartialEq, Eq)]
pub enum Stop {
    /// A read failed, and the folder's count of read faults rose.
    ReadFault,
    /// A text was refused: this is the first refusal.
    Refused(Refusal),
    /// Want of memory.
    Memory,
}

impl From<Memory> for Stop {
    ghost use Rattle.std.specs.Prelude.{◌≡◌};
    ghost use Rattle.canpack_top.specs.declared.ending.Stop.TheVariants as stop;

    ghost from_gives = { λ _ e. e ≡ stop.Memory };

    fn from(_e: Memory) -> Stop {
        Stop::Memory
    }
}
