//! Laws of standing trees: which groupings they cover, and what they show of them.
ghost use Rattle.bandwidth_bound.specs.Covering.{FailLeavesHold, LeavesCover, MainLeavesCover, NoneIsOpen, ShownIsSolvable, StandingTreesHold, TreesClaim};
ghost use Rattle.bandwidth_bound.specs.Lemmas.{StandingLemmasHold};

/// In a tree that stands, each legal grouping that extends its place extends the place of exactly one leaf.
pub fn leaves_cover()
    ensures any { LeavesCover }
    ensures main { MainLeavesCover }
{}

/// The values of lemmas that stand are at most 8 times the load of every legal grouping of their sender's
/// items alone.
pub fn standing_lemmas_hold()
    ensures { StandingLemmasHold }
{}

/// A grouping that can meet all deadlines and extends the place of a standing tree has at least the best's
/// load or extends the place of an open leaf, where the values of lemmas hold. Where no leaf may be left
/// open, none is.
pub fn standing_trees_claim()
    ensures claim { TreesClaim }
    ensures closed { NoneIsOpen }
{}

/// Where the acceptance rule holds, the trees show what the certificate's kind says of all groupings.
pub fn standing_trees_hold()
    ensures { StandingTreesHold }
{}

/// Where the acceptance rule holds, a legal grouping of a smaller load than the best's extends a fail leaf;
/// of the kind `none` each legal grouping does.
pub fn fail_leaves_hold()
    ensures { FailLeavesHold }
{}

/// Where the acceptance rule holds of a kind that speaks of times, the matrix's grouping can meet all
/// deadlines.
pub fn shown_is_solvable()
    ensures { ShownIsSolvable }
{}
