//! A partial grouping with its running sums.
ghost use Rattle.std.specs.Prelude.{◌≡◌, ◌≤◌, ◌↔◌, IsTrue, ◌<◌, ◌+◌, ◌*◌, ◌/◌, ℕ, Some, None, List, [], ◌∷◌, ◌++◌, length, count_by, nat_eq, nat_lt, take, drop, slice_index, slice_index_or, All, IfOk, IfSome, MatchOption};
ghost use Rattle.busy_period.specs.Timed.{IsInRange};
ghost use Rattle.pack_model.specs.Problem.{Parts, sent_by};
ghost use Rattle.pack_model.specs.declared.item.Item.{Item};
ghost use Rattle.response_test.specs.Queueing.{IsBit};
ghost use Rattle.response_test.specs.Refuted.{IsCommon};
ghost use Rattle.class_frame.specs.Classes.{frames_of_classes, load_of};
ghost use Rattle.class_frame.specs.Frame.{timed_of_items, weight_of_items, size_of_items};
ghost use Rattle.class_frame.specs.Grouping.{class_of, classes_of};
ghost use Rattle.grouping_tree.specs.Class.{IsClass};
ghost use Rattle.grouping_tree.specs.Partial.{IsPartial, keeps_legal, options_of};
ghost use Rattle.grouping_tree.specs.Grouped.{AreEach, AreEarlier, Belongs, IsNext, IsState, IsUsed, items_in, items_with, sender_of, labels_of, range_of, room_of, slack_at};
ghost use Rattle.busy_period.specs.declared.timed.Timed.{Timed};
ghost use Rattle.grouping_tree.specs.Slack.{sender_in_work, slack_in_work, slacks_of};
ghost use Rattle.grouping_tree.specs.Walk.{options_from, places_below, places_left};

use crate::class::Class;
use crate::frame_length::{FrameLength, LENGTHS, write_lengths};
use crate::kept::{Ahead, Kept, State, clear};
use crate::place::{place_in, write_alone};
use busy_period::Timed;
use pack_model::{Memory, Network, Problem};
use std::alloc::Global;

/// The labels of the first items of a range, and what is kept of each label's class.
#[derive(Drop)]
pub struct Partial {
    /// The problem's network.
    network: Network,
    /// The problem's common period, in ticks.
    hyper: u64,
    /// The sender whose items the range has; none over all items.
    sender: Option<u32>,
    /// The place of the range's first item.
    first: usize,
    /// How many items the range has.
    many: usize,
    /// How many of them have a label.
    count: usize,
    /// How many classes these have.
    classes: u32,
    /// How many they had when the sender in work began: the labels of earlier senders' classes.
    first_label: u32,
    /// The loads of these together.
    load: u128,
    /// The slacks of those of the sender in work together.
    slack: u128,
    /// The labels, and what is left of earlier ones.
    labels: Vec<u32>,
    /// What is kept of each item of the range as a class of its own.
    items: Vec<Class>,
    /// The class of each label as a frame.
    frames: Vec<Timed>,
    /// How long the frame of items of each number of bytes is.
    lengths: Vec<FrameLength>,
    /// What is kept of the class of each label.
    held: Vec<Class>,
    /// What was kept of the class of each item's label, and of all classes, before it got it.
    before: Vec<State>,
}

impl Partial {
    /// No labels, over all items of the problem. Memory is taken for all later calls.
    pub fn whole(alloc: Global, problem: &Problem) -> Result<Partial, Memory>
        ensures belongs { IfOk result (Belongs problem.now) }
        ensures none { IfOk result (λ partial. labels_of partial ≡ []) }
        ensures sender { IfOk result (λ partial. sender_of partial ≡ None) }
        ensures range { IfOk result (λ partial. range_of problem.now partial ≡ problem.now.items) }
        ensures room { IfOk result (λ partial. room_of partial ≡ length problem.now.items) }
    {
        Ok(Partial::over(alloc, problem, None)?)
    }

    /// No labels, over the items of the sender of a number. Memory is taken for all later calls but
    /// `restart` over more items.
    pub fn of_sender(alloc: Global, problem: &Problem, sender: u32) -> Result<Partial, Memory>
        requires { sender < length problem.now.senders }
        ensures belongs { IfOk result (Belongs problem.now) }
        ensures none { IfOk result (λ partial. labels_of partial ≡ []) }
        ensures sender { IfOk result (λ partial. sender_of partial ≡ Some sender) }
        ensures range { IfOk result (λ partial. range_of problem.now partial
            ≡ sent_by problem.now.items sender) }
        ensures room { IfOk result (λ partial. room_of partial ≡ length (sent_by problem.now.items sender)) }
    {
        Ok(Partial::over(alloc, problem, Some(sender))?)
    }

    /// No labels, over the items of a sender, or over all.
    fn over(alloc: Global, problem: &Problem, sender: Option<u32>) -> Result<Partial, Memory>
        ensures belongs { IfOk result (Belongs problem.now) }
        ensures none { IfOk result (λ partial. labels_of partial ≡ []) }
        ensures sender { IfOk result (λ partial. sender_of partial ≡ sender) }
        ensures range { IfOk result (λ partial. range_of problem.now partial
            ≡ items_in problem.now.items sender) }
        ensures room { IfOk result (λ partial. room_of partial ≡ length (items_in problem.now.items sender)) }
    {
        let place = place_in(problem, sender);
        let none = Class::none(problem.network());
        let mut items = vec![in alloc; none; place.many]?;
        write_alone(&mut items, problem, place);
        let mut lengths = vec![in alloc; FrameLength::none(); LENGTHS as usize]?;
        write_lengths(&mut lengths, problem.network());
        Ok(Partial {
            network: *problem.network(),
            hyper: problem.hyper(),
            sender,
            first: place.first,
            many: place.many,
            count: 0,
            classes: 0,
            first_label: 0,
            load: 0,
            slack: 0,
            labels: vec![in alloc; 0; place.many]?,
            items,
            frames: vec![in alloc; none.frame; place.many]?,
            lengths,
            held: vec![in alloc; none; place.many]?,
            before: vec![in alloc; State::of(none); place.many]?,
        })
    }

    /// Begins anew without labels, over the items of a sender of the problem, or over all. It has room
    /// for all items of the problem, and takes no memory. The problem need not be the one to which it
    /// belonged.
    pub fn restart(&mut self, problem: &Problem, sender: Option<u32>)
        requires belongs { (other : Parts) × Belongs other self.old }
        requires room { length problem.now.items ≤ room_of self.old }
        requires sender { IfSome sender (λ number. number < length problem.now.senders) }
        ensures belongs { Belongs problem.now self.new }
        ensures none { labels_of self.new ≡ [] }
        ensures sender { sender_of self.new ≡ sender }
        ensures range { range_of problem.now self.new ≡ items_in problem.now.items sender }
        ensures room { room_of self.new ≡ room_of self.old }
    {
        let place = place_in(problem, sender);
        self.network = *problem.network();
        self.hyper = problem.hyper();
        self.sender = sender;
        self.first = place.first;
        self.many = place.many;
        self.count = 0;
        self.classes = 0;
        self.first_label = 0;
        self.load = 0;
        self.slack = 0;
        write_alone(&mut self.items, problem, place);
        write_lengths(&mut self.lengths, problem.network());
        let none = Class::none(problem.network());
        clear(&mut self.held, &mut self.frames, none);
    }

    /// The number of the sender whose items the range has; none over all items.
    pub fn range(&self) -> Option<u32>
        requires { (problem : Parts) × Belongs problem self.now }
        ensures sender { result ≡ sender_of self.now }
        ensures items { (problem : Parts) → Belongs problem self.now
            → range_of problem self.now ≡ items_in problem.items result }
    {
        self.sender
    }

    /// The labels of the first items.
    pub fn labels(&self) -> &[u32]
        requires { (problem : Parts) × Belongs problem self.now }
        ensures { result.now ≡ labels_of self.now }
    {
        &self.labels[..self.count]
    }

    /// Whether each item of the range has a label.
    pub fn is_full(&self) -> bool
        requires { (problem : Parts) × Belongs problem self.now }
        ensures { (problem : Parts) → Belongs problem self.now
            → IsTrue result ↔ (length (labels_of self.now) ≡ length (range_of problem self.now)) }
    {
        self.count == self.many
    }

    /// The number of classes that the labels make.
    pub fn classes(&self) -> u32
        requires { (problem : Parts) × Belongs problem self.now }
        ensures { result ≡ classes_of (labels_of self.now) }
    {
        self.classes
    }

    /// The number of labels that may be put next: 0 where each item of the range has one. It goes once
    /// over the used labels.
    pub fn options(&self, problem: &Problem) -> u32
        requires { Belongs problem.now self.now }
        ensures { result ≡ length (options_of (range_of problem.now self.now) (labels_of self.now)) }
    {
        if self.count == self.many {
            return 0;
        }
        let next = self.next_alone();
        let first = self.first_option(next);
        let mut count = 0;
        for label in first..self.classes {
            if self.may_put(label, next) {
                count += 1;
            }
        }
        count + 1
    }

    /// The option of number `k`, from 0 on, by ascending labels.
    pub fn option(&self, problem: &Problem, k: u32) -> u32
        requires belongs { Belongs problem.now self.now }
        requires below { k < length (options_of (range_of problem.now self.now) (labels_of self.now)) }
        ensures { result ≡ slice_index (options_of (range_of problem.now self.now) (labels_of self.now)) k }
    {
        let next = self.next_alone();
        let first = self.first_option(next);
        let mut before = k;
        for label in first..self.classes {
            if self.may_put(label, next) {
                if before == 0 {
                    return label;
                }
                before -= 1;
            }
        }
        self.classes
    }

    /// The least option that is at least `from`, if there is one.
    pub fn next_option(&self, problem: &Problem, from: u32) -> Option<u32>
        requires { Belongs problem.now self.now }
        ensures option { MatchOption result
            (options_from (range_of problem.now self.now) (labels_of self.now) from ≡ [])
            (λ label. options_from (range_of problem.now self.now) (labels_of self.now) from
            ≡ label ∷ options_from (range_of problem.now self.now) (labels_of self.now) (label + 1)) }
        ensures legal { IfSome result (λ label.
            IsPartial (range_of problem.now self.now) (labels_of self.now ++ label ∷ [])) }
    {
        if self.count == self.many {
            return None;
        }
        if self.classes < from {
            return None;
        }
        let next = self.next_alone();
        let first = self.first_option(next);
        for label in from.max(first)..self.classes {
            if self.may_put(label, next) {
                return Some(label);
            }
        }
        Some(self.classes)
    }

    /// What is kept of the next item of the range as a class of its own.
    #[inline(always)]
    fn next_alone(&self) -> &Class
        requires { (problem : Parts) × Belongs problem self.now
            × (length (labels_of self.now) < length (range_of problem self.now)) }
        ensures { (problem : Parts) → Belongs problem self.now → IsNext problem self.now result.now }
    {
        &self.items[self.count]
    }

    /// Whether the next item may get a used label.
    #[inline(always)]
    fn may_put(&self, label: u32, next: &Class) -> bool
        requires next { (problem : Parts) × Belongs problem self.now × IsNext problem self.now next.now }
        requires used { IsUsed self.now label }
        ensures { (problem : Parts) → Belongs problem self.now → IsNext problem self.now next.now
            → result ≡ keeps_legal (range_of problem self.now) (labels_of self.now) label }
    {
        self.kept_of(label).fill.may_join(next.fill)
    }

    /// What is kept of the class of a label.
    #[inline(always)]
    fn kept_of(&self, label: u32) -> &Class
        requires belongs { (problem : Parts) × Belongs problem self.now }
        requires low { label < room_of self.now }
        ensures { (problem : Parts) → Belongs problem self.now
            → IsClass problem (items_with problem self.now label) result.now }
    {
        &self.held[label as usize]
    }

    /// What is kept once the next item has a label, one that may be put next.
    fn with_next(&self, label: u32) -> State
        requires { (problem : Parts) × Belongs problem self.now
            × IsPartial (range_of problem self.now) (labels_of self.now ++ label ∷ []) }
        ensures { (problem : Parts) → Belongs problem self.now
            → IsPartial (range_of problem self.now) (labels_of self.now ++ label ∷ [])
            → IsState problem (range_of problem self.now) (labels_of self.now ++ label ∷ []) label result }
    {
        let next = self.next_alone();
        let own = self.own_with(label, next);
        let all = self.all_with(label, next, &own);
        State {
            own,
            classes: self.classes.max(label + 1),
            first_label: self.first_option(next),
            load: all.load,
            slack: all.slack,
        }
    }

    /// What is kept of the class of a label, one that may be put next, once the next item has it too.
    #[inline(always)]
    fn own_with(&self, label: u32, next: &Class) -> Class
        requires { (problem : Parts) × Belongs problem self.now × IsNext problem self.now next.now
            × IsPartial (range_of problem self.now) (labels_of self.now ++ label ∷ []) }
        ensures { (problem : Parts) → Belongs problem self.now → IsNext problem self.now next.now
            → IsPartial (range_of problem self.now) (labels_of self.now ++ label ∷ [])
            → IsClass problem (class_of label (labels_of self.now ++ label ∷ []) (range_of problem self.now)) result }
    {
        if label == self.classes {
            return *next;
        }
        let before = self.kept_of(label);
        let fill = before.fill.join(next.fill);
        let long = self.lengths[fill.frame_bytes() as usize];
        before.join(next, fill, long, &self.network)
    }

    /// What all classes come to then, where this is what is kept of the class of the label.
    #[inline(always)]
    fn all_with(&self, label: u32, next: &Class, own: &Class) -> Ahead
        requires { (problem : Parts) × Belongs problem self.now × IsNext problem self.now next.now
            × IsPartial (range_of problem self.now) (labels_of self.now ++ label ∷ [])
            × IsClass problem (class_of label (labels_of self.now ++ label ∷ []) (range_of problem self.now)) own.now }
        ensures load { (problem : Parts) → Belongs problem self.now → IsNext problem self.now next.now
            → IsPartial (range_of problem self.now) (labels_of self.now ++ label ∷ [])
            → IsClass problem (class_of label (labels_of self.now ++ label ∷ []) (range_of problem self.now)) own.now
            → result.load ≡ load_of problem (range_of problem self.now) (labels_of self.now ++ label ∷ []) }
        ensures slack { (problem : Parts) → Belongs problem self.now → IsNext problem self.now next.now
            → IsPartial (range_of problem self.now) (labels_of self.now ++ label ∷ [])
            → IsClass problem (class_of label (labels_of self.now ++ label ∷ []) (range_of problem self.now)) own.now
            → result.slack ≡ slack_at problem (range_of problem self.now) (labels_of self.now ++ label ∷ []) }
    {
        let before = self.kept_of(label);
        let other_loads = self.load - before.load();
        let other_slacks = self.slacks_beside(next) - before.slack();
        Ahead {
            load: other_loads + own.load(),
            slack: other_slacks + own.slack(),
        }
    }

    /// The slacks of the classes of the next item's sender together.
    fn slacks_beside(&self, next: &Class) -> u128
        requires { (problem : Parts) × Belongs problem self.now × IsNext problem self.now next.now }
        ensures { (problem : Parts) → Belongs problem self.now → IsNext problem self.now next.now
            → result ≡ slacks_of problem next.now.fill.sender (range_of problem self.now) (labels_of self.now) }
    {
        if self.is_in_work(next) { self.slack } else { 0 }
    }

    /// The least label that the next item may get: those below are of classes of earlier senders.
    #[inline(always)]
    fn first_option(&self, next: &Class) -> u32
        requires { (problem : Parts) × Belongs problem self.now × IsNext problem self.now next.now }
        ensures { (problem : Parts) → Belongs problem self.now → IsNext problem self.now next.now → (label : ℕ)
            → AreEarlier (range_of problem self.now) (labels_of self.now ++ label ∷ []) result }
    {
        if self.is_in_work(next) {
            self.first_label
        } else {
            self.classes
        }
    }

    /// Whether the next item is of the sender in work.
    fn is_in_work(&self, next: &Class) -> bool
        requires { (problem : Parts) × Belongs problem self.now × IsNext problem self.now next.now }
        ensures { (problem : Parts) → Belongs problem self.now → IsNext problem self.now next.now → IsTrue result
            ↔ (sender_in_work (range_of problem self.now) (labels_of self.now) ≡ Some next.now.fill.sender) }
    {
        self.count > 0 && self.items[self.count - 1].fill.sender == next.fill.sender
    }

    /// Gives the next item a label: one that may be put next.
    pub fn put(&mut self, problem: &Problem, label: u32)
        requires belongs { Belongs problem.now self.old }
        requires legal { IsPartial (range_of problem.now self.old) (labels_of self.old ++ label ∷ []) }
        ensures belongs { Belongs problem.now self.new }
        ensures labels { labels_of self.new ≡ labels_of self.old ++ label ∷ [] }
        ensures range { range_of problem.now self.new ≡ range_of problem.now self.old }
        ensures sender { sender_of self.new ≡ sender_of self.old }
        ensures room { room_of self.new ≡ room_of self.old }
    {
        let after = self.with_next(label);
        let place = label as usize;
        self.before[self.count] = State {
            own: self.held[place],
            classes: self.classes,
            first_label: self.first_label,
            load: self.load,
            slack: self.slack,
        };
        self.labels[self.count] = label;
        self.count += 1;
        self.held[place] = after.own;
        self.frames[place] = after.own.frame;
        self.classes = after.classes;
        self.first_label = after.first_label;
        self.load = after.load;
        self.slack = after.slack;
    }

    /// Takes the last label away.
    pub fn take_back(&mut self, problem: &Problem)
        requires belongs { Belongs problem.now self.old }
        requires some { 0 < length (labels_of self.old) }
        ensures belongs { Belongs problem.now self.new }
        ensures labels { (label : ℕ) × (labels_of self.old ≡ labels_of self.new ++ label ∷ []) }
        ensures range { range_of problem.now self.new ≡ range_of problem.now self.old }
        ensures sender { sender_of self.new ≡ sender_of self.old }
        ensures room { room_of self.new ≡ room_of self.old }
    {
        self.count -= 1;
        let place = self.labels[self.count] as usize;
        let before = &self.before[self.count];
        self.held[place] = before.own;
        self.frames[place] = before.own.frame;
        self.classes = before.classes;
        self.first_label = before.first_label;
        self.load = before.load;
        self.slack = before.slack;
    }

    /// What is kept of the class of a used label, for every problem to which the partial grouping belongs.
    pub fn kept(&self, label: u32) -> Kept
        requires belongs { (problem : Parts) × Belongs problem self.now }
        requires used { IsUsed self.now label }
        ensures timed { (problem : Parts) → Belongs problem self.now
            → result.timed ≡ timed_of_items problem (items_with problem self.now label) }
        ensures weight { (problem : Parts) → Belongs problem self.now
            → result.weight ≡ weight_of_items (items_with problem self.now label) }
        ensures size { (problem : Parts) → Belongs problem self.now
            → Some result.size ≡ size_of_items (items_with problem self.now label) }
    {
        let kept = self.kept_of(label);
        Kept {
            weight: kept.fill.weight,
            size: self.lengths[kept.fill.frame_bytes() as usize].size,
            timed: kept.frame,
        }
    }

    /// The loads of the classes together, in ticks of a common period, for every problem to which the
    /// partial grouping belongs.
    pub fn kept_load(&self) -> u128
        requires { (problem : Parts) × Belongs problem self.now }
        ensures { (problem : Parts) → Belongs problem self.now
            → result ≡ load_of problem (range_of problem self.now) (labels_of self.now) }
    {
        self.load
    }

    /// The slacks of the classes of the sender in work together, in eighths of ticks of a common period, 0
    /// where no item is placed, for every problem to which the partial grouping belongs.
    pub fn kept_slack(&self) -> u128
        requires { (problem : Parts) × Belongs problem self.now }
        ensures { (problem : Parts) → Belongs problem self.now
            → result ≡ slack_in_work problem (range_of problem self.now) (labels_of self.now)
            (sender_in_work (range_of problem self.now) (labels_of self.now)) }
    {
        self.slack
    }

    /// What all classes come to once the next item has a label, one that may be put next, for every problem
    /// to which the partial grouping belongs. It takes no memory and changes nothing.
    #[inline(always)]
    pub fn ahead(&self, label: u32) -> Ahead
        requires { (problem : Parts) × Belongs problem self.now
            × IsPartial (range_of problem self.now) (labels_of self.now ++ label ∷ []) }
        ensures load { (problem : Parts) → Belongs problem self.now
            → IsPartial (range_of problem self.now) (labels_of self.now ++ label ∷ [])
            → result.load ≡ load_of problem (range_of problem self.now) (labels_of self.now ++ label ∷ []) }
        ensures slack { (problem : Parts) → Belongs problem self.now
            → IsPartial (range_of problem self.now) (labels_of self.now ++ label ∷ [])
            → result.slack ≡ slack_in_work problem (range_of problem self.now)
            (labels_of self.now ++ label ∷ [])
            (sender_in_work (range_of problem self.now) (labels_of self.now ++ label ∷ [])) }
    {
        let next = self.next_alone();
        let own = self.own_with(label, next);
        self.all_with(label, next, &own)
    }

    /// The classes as frames, by label, in ticks, for every problem to which the partial grouping belongs.
    pub fn frames(&self) -> &[Timed]
        requires { (problem : Parts) × Belongs problem self.now }
        ensures value { (problem : Parts) → Belongs problem self.now
            → result.now ≡ frames_of_classes problem (range_of problem self.now) (labels_of self.now) }
        ensures in_range { All IsInRange result.now }
        ensures count { length result.now ≡ classes_of (labels_of self.now) }
        ensures few { length result.now ≤ 128 }
        ensures bit { (problem : Parts) → Belongs problem self.now
            → IsBit result.now problem.network.nominal_ticks }
        ensures common { (problem : Parts) → Belongs problem self.now → IsCommon result.now problem.hyper }
    {
        &self.frames[..self.classes as usize]
    }

    /// The class of a used label as a frame, in ticks.
    pub fn timed_of(&self, problem: &Problem, label: u32) -> Timed
        requires belongs { Belongs problem.now self.now }
        requires used { IsUsed self.now label }
        ensures { result ≡ timed_of_items problem.now (items_with problem.now self.now label) }
    {
        self.kept(label).timed
    }

    /// The data length of the frame of a used label, in bytes.
    pub fn size_of(&self, problem: &Problem, label: u32) -> u32
        requires belongs { Belongs problem.now self.now }
        requires used { IsUsed self.now label }
        ensures { Some result ≡ size_of_items (items_with problem.now self.now label) }
    {
        self.kept(label).size
    }

    /// The weights of the items of a used label together.
    pub fn weight_of(&self, problem: &Problem, label: u32) -> u32
        requires belongs { Belongs problem.now self.now }
        requires used { IsUsed self.now label }
        ensures { result ≡ weight_of_items (items_with problem.now self.now label) }
    {
        self.kept(label).weight
    }
}
