//! That the answer is one.
ghost use Rattle.par_check.specs.Laws.{AnswerIsOne};

/// Two answers about the same shards are equal, want of memory aside.
pub fn answer_is_one()
    ensures { AnswerIsOne }
{}
