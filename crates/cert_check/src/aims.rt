//! What the trees of a certificate are to show.
ghost use Rattle.std.specs.Prelude.{◌≡◌};
ghost use Rattle.bandwidth_bound.specs.Goals.{eighths};
ghost use Rattle.cert_check.specs.Said.{lemma_aim, main_aim};
ghost use Rattle.cert_check.specs.Trees.{HasRoom};

use crate::kinds::may_leave;
use crate::walk::Aim;
use cert_text::Kind;

/// A load in eighths.
pub(crate) fn in_eighths(best: Option<u128>) -> Option<u128>
    requires { HasRoom best }
    ensures { result ≡ eighths best }
{
    match best {
        None => None,
        Some(load) => Some(8 * load),
    }
}

/// What the main tree is to show, where the load of the matrix is `best` ticks a common period, if it has rows.
pub fn main_aim(kind: Kind, best: Option<u128>) -> Aim
    requires { HasRoom best }
    ensures { result ≡ main_aim kind best }
{
    Aim {
        range: None,
        value: in_eighths(best),
        may_leave: may_leave(kind),
    }
}

/// What the tree of a lemma is to show: that each grouping of the sender's items reaches the value, in eighths of
/// ticks a common period.
pub fn lemma_aim(sender: u32, value: u128) -> Aim
    ensures { result ≡ lemma_aim sender value }
{
    Aim {
        range: Some(sender),
        value: Some(value),
        may_leave: false,
    }
}
