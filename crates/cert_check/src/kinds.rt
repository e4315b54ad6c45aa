//! Which parts are judged of a kind of certificate.
ghost use Rattle.std.specs.Prelude.{◌≡◌};
ghost use Rattle.cert_check.specs.Kinds.{is_kind_placed};
ghost use Rattle.cert_check.specs.Said.{may_leave_of};

use cert_text::Kind;

/// Whether leaves of the main tree may be left open.
pub(crate) fn may_leave(kind: Kind) -> bool
    ensures { result ≡ may_leave_of kind }
{
    match kind {
        Kind::KindBetween => true,
        Kind::KindPlaced | Kind::KindTimed | Kind::KindBest | Kind::KindNoSolution => false,
    }
}

/// Whether the kind is `placed`, whose frames are not judged.
pub(crate) fn is_kind_placed(kind: Kind) -> bool
    ensures { result ≡ is_kind_placed kind }
{
    match kind {
        Kind::KindPlaced => true,
        Kind::KindTimed | Kind::KindBetween | Kind::KindBest | Kind::KindNoSolution => false,
    }
}
