//! How a search goes on to its next open leaf.
ghost use Rattle.std.specs.Prelude.{◌≡◌, ◌+◌, ◌≤◌, ◌<◌, ◌++◌, ℕ, List, true, [], ◌∷◌, length, take, Option, MatchOption, OnOk, IfOk, IfSome};
ghost use Rattle.grouping_tree.specs.Grouped.{Belongs, labels_of, range_of, room_of};
ghost use Rattle.grouping_tree.specs.Partial.{IsPartial};
ghost use Rattle.grouping_tree.specs.Walk.{places_left};
ghost use Rattle.tree_search.specs.declared.finding.Found.{Found};
ghost use Rattle.tree_search.specs.Going.{Holds, IsOn, places_at, places_on};
ghost use Rattle.tree_search.specs.Shown.{GoesOn, IsAt, IsOf, items_of, start_of};
ghost use Rattle.tree_search.specs.Step.{Searched, Steps};

use crate::judge::Judge;
use crate::node::{Node, put_node};
use crate::search::Search;
use grouping_tree::Partial;
use pack_model::{Memory, Problem};

// How far a pass over the options at a node came.
#[derive(Drop)]
struct Passed {
    // How many options became bound leaves.
    made: u64,
    // The option that comes next, if one is left.
    next: Option<u32>,
}

impl Search {
    // Goes on at its partial grouping with the options from a label on, and then back to the options that are
    // left before: each whose lower bound reaches the best load becomes a bound leaf, as long as a step is
    // left, and the first other one is the open leaf then. Answers how many steps it made.
    pub(crate) fn go_on<J: Judge>(
        &mut self,
        judge: &J,
        problem: &Problem,
        from: Option<u32>,
        steps: u64,
    ) -> Result<u64, Memory>
        requires search { IsOf problem.now self.old }
        requires suits { J.suits judge.now problem.now (items_of problem.now self.old) }
        requires open { self.old.open ≡ true }
        requires done { from ≡ None → labels_of self.old.partial ≡ start_of self.old }
        ensures goes_on { OnOk result (GoesOn problem.now self.old self.new) }
        ensures count { IfOk result
            (λ made. length self.new.nodes.items ≡ length self.old.nodes.items + made) }
        ensures within { IfOk result (λ made. made ≤ steps) }
        ensures gives { IfOk result (λ made. (x : Searched) → IsOn problem.now self.old from x → (y : Searched)
            × Steps (J.finds judge.now problem.now (items_of problem.now self.old))
            (items_of problem.now self.old) (start_of self.old) made x y
            × IsAt problem.now self.new y) }
    {
        let mut made = 0;
        let mut next = from;
        while let Some(label) = next {
            let passed = pass_bounded(
                judge,
                problem,
                &self.partial,
                self.best,
                label,
                steps - made,
                &mut self.nodes,
            )?;
            made += passed.made;
            if let Some(option) = passed.next {
                self.partial.put(problem, option);
                return Ok(made);
            }
            next = back(problem, &mut self.partial, self.base);
        }
        self.open = false;
        Ok(made)
    }
}

// Takes the last label back, and answers the label after it; none where only the first `base` labels are left.
pub(crate) fn back(problem: &Problem, partial: &mut Partial, base: usize) -> Option<u32>
    requires belongs { Belongs problem.now partial.old }
    requires below { base ≤ length (labels_of partial.old) }
    ensures belongs { Belongs problem.now partial.new }
    ensures range { range_of problem.now partial.new ≡ range_of problem.now partial.old }
    ensures room { room_of partial.new ≡ room_of partial.old }
    ensures below { base ≤ length (labels_of partial.new) }
    ensures front { take base (labels_of partial.new) ≡ take base (labels_of partial.old) }
    ensures less { MatchOption result (labels_of partial.new ≡ take base (labels_of partial.old))
        (λ from. length (labels_of partial.new) < length (labels_of partial.old)) }
    ensures places { places_on (range_of problem.now partial.old) base (labels_of partial.new) result
        ≡ places_left (range_of problem.now partial.old) base (labels_of partial.old) }
{
    let labels = partial.labels();
    if labels.len() == base {
        return None;
    }
    let last = labels[labels.len() - 1];
    partial.take_back(problem);
    Some(last + 1)
}

// Makes a bound leaf of each option at a partial grouping, from a label on, whose lower bound reaches the best
// load, up to the first other one, as long as a step is left.
fn pass_bounded<J: Judge>(
    judge: &J,
    problem: &Problem,
    partial: &Partial,
    best: Option<u128>,
    from: u32,
    steps: u64,
    nodes: &mut Vec<Node>,
) -> Result<Passed, Memory>
    requires belongs { Belongs problem.now partial.now }
    requires suits { J.suits judge.now problem.now (range_of problem.now partial.now) }
    ensures within { IfOk result (λ passed. passed.made ≤ steps) }
    ensures count { IfOk result
        (λ passed. length nodes.new.items ≡ length nodes.old.items + passed.made) }
    ensures legal { IfOk result (λ passed. IfSome passed.next (λ label.
        IsPartial (range_of problem.now partial.now) (labels_of partial.now ++ label ∷ []))) }
    ensures gives { IfOk result (λ passed. let items = range_of problem.now partial.now
        in let labels = labels_of partial.now
        in (start : List ℕ) (base : ℕ) (found : Option Found) (x : Searched) → base ≤ length labels
        → Holds items start nodes.old.items (places_on items base labels (Some from)) best found x
        → (y : Searched) × Steps (J.finds judge.now problem.now items) items start passed.made x y
        × Holds items start nodes.new.items (places_at items base labels passed.next) best found y) }
{
    let mut made = 0;
    let mut next = from;
    while let Some(label) = partial.next_option(problem, next) {
        if made == steps || !judge.is_bounded(problem, partial, label, best) {
            return Ok(Passed {
                made,
                next: Some(label),
            });
        }
        put_node(nodes, Node::Bound)?;
        made += 1;
        next = label + 1;
    }
    Ok(Passed { made, next: None })
}
