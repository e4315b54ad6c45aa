//! What comes of a stop.
ghost use Rattle.canpack_top.specs.Meaning.{Stops};

use crate::ending::{Answer, Halt, Status, Stop};
use crate::line::refused_line;
use std::alloc::Global;

/// The answer with the line of a refusal, or the halt; of a refusal want of memory comes only where its line finds
/// none.
pub fn answer_of(alloc: Global, stop: Stop) -> Result<Answer, Halt>
    ensures { Stops stop result }
{
    match stop {
        Stop::Refused(refusal) => Ok(Answer {
            status: Status::Refused,
            line: refused_line(alloc, refusal)?,
        }),
        Stop::ReadFault => Err(Halt::ReadFault),
        Stop::Memory => Err(Halt::Memory),
    }
}
