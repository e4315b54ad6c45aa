//! The judge of the places of a search.
ghost use Rattle.std.specs.Prelude.{ℕ, ◌≡◌, ◌≤◌, ◌<◌, ◌↔◌, List, [], Option, None, Some, length, take, IsTrue, IfNone, IfOk, IfSome};
ghost use Rattle.pack_model.specs.Problem.{Parts};
ghost use Rattle.class_frame.specs.Grouping.{classes_of};
ghost use Rattle.grouping_tree.specs.Grouped.{Belongs, items_in, labels_of, range_of};
ghost use Rattle.bandwidth_bound.specs.Bounds.{Reaches};
ghost use Rattle.bandwidth_bound.specs.Goals.{eighths};
ghost use Rattle.search_judge.specs.Findings.{CanPass, HasOrder, IsStuck};
ghost use Rattle.search_judge.specs.Judges.{IsJudge, JudgesOver, KeepsJudge, order_kept};

use crate::stuck::find_stuck;
use bandwidth_bound::Floors;
use cert_text::Refuted;
use grouping_tree::Partial;
use pack_model::{Labels, Memory, Problem};
use std::alloc::Global;
use tree_search::{Finding, Judge};

/// The judge of a search over the groupings of a problem's items, all of them or one sender's.
#[derive(Drop)]
pub struct SearchJudge {
    /// The sender whose items are searched; none over all items. Of one sender's items alone it isn't asked
    /// whether their frames can pass.
    range: Option<u32>,
    /// The values of lemmas by sender, in eighths of ticks a common period.
    values: Vec<u128>,
    /// What the items that are not placed cost at least.
    floors: Floors,
    /// Room for an order of the classes.
    order: Vec<u32>,
    alloc: Global,
}

impl SearchJudge {
    /// The judge over the items of a sender, or over all, with the values of lemmas by sender in eighths of ticks
    /// a common period, 0 where there is none. The only error is want of memory.
    pub fn new(
        alloc: Global,
        problem: &Problem,
        range: Option<u32>,
        values: &[u128],
    ) -> Result<SearchJudge, Memory>
        requires { IfSome range (λ sender. sender < length problem.now.senders) }
        ensures is { IfOk result (IsJudge problem.now range values.now) }
        ensures suits { IfOk result (JudgesOver problem.now (items_in problem.now.items range)) }
    {
        let mut floors = Floors::new(alloc, problem)?;
        floors.fill(problem, range, values);
        Ok(SearchJudge {
            range,
            values: Vec::from_slice(alloc, values)?,
            floors,
            order: vec![in alloc; 0; 128]?,
            alloc,
        })
    }

    // The evidence against the classes so far that are stuck; none where they can all pass, and over one sender's
    // items.
    fn stuck(&mut self, problem: &Problem, partial: &Partial) -> Result<Option<Refuted>, Memory>
        requires belongs { Belongs problem.now partial.now }
        requires suits { JudgesOver problem.now (range_of problem.now partial.now) self.old }
        ensures kept { KeepsJudge self.old self.new }
        ensures stuck { IfOk result (λ found. IfSome found
            (IsStuck problem.now self.old.range (labels_of partial.now))) }
        ensures can_pass { IfOk result (λ found. IfNone found
            (CanPass problem.now self.old.range (labels_of partial.now))) }
        ensures order { IfOk result (λ found. IfNone found
            (HasOrder problem.now self.old.range (labels_of partial.now)
            (order_kept self.new.range (classes_of (labels_of partial.now)) self.new.order.items))) }
    {
        if self.range.is_some() {
            return Ok(None);
        }
        let frames = partial.frames();
        let bit = u64::from(problem.network().nominal_ticks);
        let found = find_stuck(self.alloc, frames, bit, problem.hyper(), &mut self.order)?;
        Ok(found)
    }

    // The order of the classes that was found; none over one sender's items.
    fn kept_order(&self, partial: &Partial) -> Result<Labels, Memory>
        requires belongs { (problem : Parts) × Belongs problem partial.now }
        requires room { length self.now.order.items ≡ 128 }
        ensures { IfOk result (λ order. order
            ≡ order_kept self.now.range (classes_of (labels_of partial.now)) self.now.order.items) }
    {
        let order = match self.range {
            None => Vec::from_slice(self.alloc, &self.order[..partial.frames().len()])?,
            Some(_) => Vec::new(self.alloc),
        };
        Ok(Labels::of(order))
    }
}

// Whether a lower bound reaches 8 times the best load, if there is one.
fn reaches_best(best: Option<u128>, lower8: u128) -> bool
    ensures { IsTrue result ↔ Reaches (eighths best) lower8 }
{
    match best {
        Some(load) => load <= lower8 / 8,
        None => false,
    }
}

impl Judge for SearchJudge {
    ghost use Rattle.std.specs.Prelude.{ℕ, List, Option};
    ghost use Rattle.pack_model.specs.declared.item.Item.{Item};
    ghost use Rattle.pack_model.specs.Problem.{Parts};
    ghost use Rattle.bandwidth_bound.specs.Prices.{lower8_of};
    ghost use Rattle.search_judge.specs.Findings.{Finds};
    ghost use Rattle.search_judge.specs.Judges.{JudgesOver};

    ghost suits = { λ self problem items. JudgesOver problem items self };

    ghost bound_of = { λ self problem items p. lower8_of problem self.values.items items p };

    ghost finds = { λ self problem items best p finding.
        Finds problem self.range self.values.items best p finding };

    fn lower8(&self, problem: &Problem, partial: &Partial) -> u128 {
        self.floors.lower8(partial)
    }

    fn is_bounded(
        &self,
        problem: &Problem,
        partial: &Partial,
        label: u32,
        best: Option<u128>,
    ) -> bool {
        reaches_best(best, self.floors.lower8_ahead(partial, label))
    }

    fn find(
        &mut self,
        problem: &Problem,
        partial: &Partial,
        best: Option<u128>,
    ) -> Result<Finding, Memory> {
        if reaches_best(best, self.lower8(problem, partial)) {
            return Ok(Finding::Bounded);
        }
        if let Some(refuted) = self.stuck(problem, partial)? {
            return Ok(Finding::Failed(refuted));
        }
        if partial.is_full() {
            let order = self.kept_order(partial)?;
            let load = partial.kept_load();
            return Ok(Finding::Complete { load, order });
        }
        Ok(Finding::Parted)
    }
}
