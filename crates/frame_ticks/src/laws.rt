//! The laws of stuffing, as the clauses of a function that does nothing.
ghost use Rattle.frame_ticks.specs.Laws.{OneLength, OneOutcome};

/// Stuffing has exactly one outcome, and a frame with given bits has exactly one length in ticks.
pub fn stuffing_is_exact()
    ensures outcome { OneOutcome }
    ensures length { OneLength }
{}
