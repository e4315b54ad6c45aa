//! How a plan begins.
ghost use Rattle.std.specs.Prelude.{◌≡◌, ◌+◌, ◌≤◌, ◌<◌, All, length, map, IfOk, IfSome};
ghost use Rattle.cert_text.specs.PlainTree.{plain_lemma};
ghost use Rattle.cert_text.specs.Written.{LemmaFits};
ghost use Rattle.bandwidth_bound.specs.Lemmas.{LemmasStand, values_of};
ghost use Rattle.search_judge.specs.Findings.{FoundStands};
ghost use Rattle.plan_search.specs.Begin.{Begins};
ghost use Rattle.plan_search.specs.Searches.{LemmaIsTrimmed, nodes_of_lemmas, places_of_first};

use crate::first::first_best;
use crate::turns::take_turns;
use cert_text::Lemma;
use pack_model::{Memory, Problem, Values};
use std::alloc::Global;
use tree_search::Found;

/// What a plan begins with.
#[derive(Drop)]
pub struct Begun {
    /// A lemma for each sender whose search ended within its share, by sender.
    pub lemmas: Vec<Lemma>,
    /// The values of the lemmas by sender, in eighths of ticks a common period, 0 where there is none.
    pub values: Values,
    /// The first best grouping, where there is one.
    pub first: Option<Found>,
    /// The branches that are left.
    pub left: u64,
}

/// The values of lemmas by sender, in eighths of ticks a common period, 0 where there is none. The only error
/// is want of memory.
pub(crate) fn lemma_values(
    alloc: Global,
    problem: &Problem,
    lemmas: &[Lemma],
) -> Result<Values, Memory>
    requires { All (λ lemma. lemma.sender < length problem.now.senders) lemmas.now }
    ensures { IfOk result (λ values. values ≡ values_of problem.now (map plain_lemma lemmas.now)) }
{
    let mut values = vec![in alloc; 0u128; problem.senders().len()]?;
    for k in 0..lemmas.len() {
        let lemma = &lemmas[lemmas.len() - 1 - k];
        values[lemma.sender as usize] = lemma.value;
    }
    Ok(Values::of(values))
}

/// Begins a plan within so many branches, from 1 to 1000000: a lemma for each sender whose search ends within
/// its share, where there are two or more, and the first best grouping. The only error is want of memory.
pub fn begin(alloc: Global, problem: &Problem, branches: u64) -> Result<Begun, Memory>
    ensures begins { IfOk result (λ begun. Begins problem.now branches
        (map plain_lemma begun.lemmas.items) begun.left begun.first) }
    ensures values { IfOk result (λ begun. begun.values
        ≡ values_of problem.now (map plain_lemma begun.lemmas.items)) }
    ensures stand { IfOk result (λ begun. LemmasStand problem.now (map plain_lemma begun.lemmas.items)) }
    ensures trimmed { IfOk result (λ begun. All (LemmaIsTrimmed problem.now)
        (map plain_lemma begun.lemmas.items)) }
    ensures nodes { IfOk result (λ begun. begun.left + nodes_of_lemmas (map plain_lemma begun.lemmas.items)
        ≡ branches) }
    ensures counted { IfOk result (λ begun. nodes_of_lemmas (map plain_lemma begun.lemmas.items)
        ≤ places_of_first problem.now (length problem.now.senders)) }
    ensures first_stands { IfOk result (λ begun. IfSome begun.first (FoundStands problem.now)) }
    ensures fits { IfOk result (λ begun. All LemmaFits (map plain_lemma begun.lemmas.items)) }
{
    let taken = take_turns(alloc, problem, branches)?;
    let first = first_best(alloc, problem, &taken.groupings)?;
    let values = lemma_values(alloc, problem, &taken.lemmas)?;
    Ok(Begun {
        lemmas: taken.lemmas,
        values,
        first,
        left: taken.left,
    })
}
