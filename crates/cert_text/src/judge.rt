//! Judging a line: what it says, and whether it can stand.
ghost use Rattle.std.specs.Prelude.{◌≡◌, IfOk, IfSome, None, Some};
ghost use Rattle.std.specs.Option.{option_and_then};
ghost use Rattle.cert_text.specs.Grammar.{after};
ghost use Rattle.cert_text.specs.Words.{line_of};

use crate::line::Line;
use crate::position::Position;
use crate::words::read_line;
use pack_model::Memory;
use std::alloc::Global;

/// What a line says, where it can stand; the position is then past it. None where it can't: what is to come
/// isn't known then.
pub(crate) fn judge(
    alloc: Global,
    position: &mut Position,
    line: &[u8],
) -> Result<Option<Line>, Memory>
    ensures stands { IfOk result (λ found. IfSome found (λ l.
        (line_of line.now ≡ Some l) × (after position.old l ≡ Some position.new))) }
    ensures refused { IfOk result (λ found. found ≡ None
        → option_and_then (λ l. after position.old l) (line_of line.now) ≡ None) }
{
    let Some(said) = read_line(alloc, line)? else {
        return Ok(None);
    };
    if !position.take(&said)? {
        return Ok(None);
    }
    Ok(Some(said))
}
