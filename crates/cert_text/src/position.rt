//! Where a reader stands in a certificate.
ghost use Rattle.std.specs.Prelude.{◌≡◌, ◌<◌, ◌+◌, false, take, vec_len, ◌++◌, ◌∷◌, [], OnOk, IfOk, IfSome, Some, None, IsTrue, ◌↔◌, if◌then◌else◌};
ghost use Rattle.std.specs.Option.{option_map};
ghost use Rattle.std.specs.Prelude.{◌⊎◌, ◌==◌};
ghost use Rattle.std.specs.List.{list_all};
ghost use Rattle.cert_text.specs.declared.symbol.Symbol.TheVariants as symbol;
ghost use Rattle.cert_text.specs.Depths.{depth_of};
ghost use Rattle.cert_text.specs.Grammar.{after, body, expand, marked_tree, start, subtrees};
ghost use Rattle.cert_text.specs.Nodes.{node_line};
ghost use Rattle.cert_text.specs.Pieces.{next_pieces, of_run, pieces};

use crate::line::Line;
use crate::node::Node;
use crate::parts::Kind;
use crate::symbol::Symbol;
use pack_model::Memory;
use std::alloc::Global;
use std::marker::Model;

/// How many inner nodes may stand on a path.
const DEEPEST: u32 = 128;

/// Equal pieces after each other.
#[derive(Clone, Copy, Debug)]
pub(crate) struct Run {
    /// The piece.
    pub symbol: Symbol,
    /// How often.
    pub count: u32,
}

/// What is to come of a piece after its first line.
#[derive(Clone, Copy, Debug)]
pub(crate) struct Next {
    /// What comes first.
    pub first: Run,
    /// What comes then.
    pub second: Run,
}

/// What is still to come of a certificate after lines.
#[derive(Debug, Drop)]
pub(crate) struct Position {
    runs: Vec<Run>,
}

impl Model for Position {
    ghost use Rattle.std.specs.Prelude.{List};
    ghost use Rattle.cert_text.specs.declared.symbol.Symbol.{Symbol};
    ghost use Rattle.cert_text.specs.Pieces.{pieces};

    ghost Value = { List Symbol };

    ghost view = { λ a. pieces a.runs.items };
}

const NO_RUN: Run = Run {
    symbol: Symbol::End,
    count: 0,
};

fn once(symbol: Symbol) -> Run
    ensures { of_run result ≡ symbol ∷ [] }
{
    Run { symbol, count: 1 }
}

fn nothing() -> Next
    ensures { next_pieces result ≡ [] }
{
    Next {
        first: NO_RUN,
        second: NO_RUN,
    }
}

fn alone(symbol: Symbol) -> Next
    ensures { next_pieces result ≡ symbol ∷ [] }
{
    Next {
        first: once(symbol),
        second: NO_RUN,
    }
}

fn both(first: Symbol, second: Symbol) -> Next
    ensures { next_pieces result ≡ first ∷ second ∷ [] }
{
    Next {
        first: once(first),
        second: once(second),
    }
}

fn times(symbol: Symbol, count: u32) -> Next
    ensures { next_pieces result ≡ of_run (record { symbol = symbol; count = count }) }
{
    Next {
        first: Run { symbol, count },
        second: NO_RUN,
    }
}

fn body_of(kind: Kind) -> Symbol
    ensures { result ≡ body kind }
{
    match kind {
        Kind::KindPlaced => Symbol::End,
        Kind::KindTimed => Symbol::Frames,
        Kind::KindBetween | Kind::KindBest | Kind::KindNoSolution => Symbol::Parts,
    }
}

fn below(marks: bool, depth: u32, count: u32) -> Option<Next>
    ensures { option_map next_pieces result ≡ subtrees marks depth count }
{
    if depth < DEEPEST {
        Some(times(Symbol::TreeAt(marks, depth + 1), count))
    } else {
        None
    }
}

fn shard_at(marks: bool, depth: u32) -> Option<Next>
    ensures { option_map next_pieces result ≡ marked_tree marks depth }
{
    if marks {
        Some(both(Symbol::TreeAt(false, depth), Symbol::Join(depth)))
    } else {
        None
    }
}

// What is to come of a tree after its first line.
fn tree_next(marks: bool, depth: u32, line: &Line) -> Option<Next>
    ensures { option_map next_pieces result ≡ expand (symbol.TreeAt marks depth) line.now }
{
    match line {
        Line::InnerLine(count) => below(marks, depth, *count),
        Line::BoundLine | Line::OpenLine => Some(nothing()),
        Line::FailLine(count) => Some(times(Symbol::Against, *count)),
        Line::ShardLine => shard_at(marks, depth),
        _ => None,
    }
}

// What is to come of a piece after this line, None where no such piece begins with it.
fn next_of(symbol: Symbol, line: &Line) -> Option<Next>
    ensures { option_map next_pieces result ≡ expand symbol line.now }
{
    match (symbol, line) {
        (Symbol::TreeAt(marks, depth), line) => tree_next(marks, depth, line),
        (Symbol::First, Line::FirstLine) => Some(nothing()),
        (Symbol::FromKind, Line::KindLine(kind)) => Some(alone(body_of(*kind))),
        (Symbol::Frames, Line::FrameWords(_)) => Some(alone(Symbol::Frames)),
        (Symbol::Frames, Line::EndLine) => Some(nothing()),
        (Symbol::Parts, Line::FrameWords(_)) => Some(alone(Symbol::Parts)),
        (Symbol::Parts | Symbol::Lemmas, Line::LemmaWords { .. }) => {
            Some(both(Symbol::TreeAt(true, 0), Symbol::Lemmas))
        }
        (Symbol::Parts | Symbol::Lemmas, Line::MainLine) => {
            Some(both(Symbol::TreeAt(true, 0), Symbol::End))
        }
        (Symbol::Against, Line::AgainstLine(_, _)) => Some(nothing()),
        (Symbol::Join(_), Line::JoinLine) => Some(nothing()),
        (Symbol::End, Line::EndLine) => Some(nothing()),
        _ => None,
    }
}

// Puts pieces before those to come.
fn put(runs: &mut Vec<Run>, run: Run) -> Result<(), Memory>
    ensures { OnOk result (pieces runs.new.items ≡ of_run run ++ pieces runs.old.items) }
{
    if run.count > 0 {
        runs.push(run)?;
    }
    Ok(())
}

// A run without its first piece.
fn less_first(run: Run) -> Run
    requires { 0 < run.count }
    ensures { of_run run ≡ run.symbol ∷ of_run result }
{
    Run {
        symbol: run.symbol,
        count: run.count - 1,
    }
}

// Puts a run in the place of the last one.
fn put_last(runs: &mut Vec<Run>, last: usize, run: Run)
    requires { last + 1 ≡ vec_len runs.old }
    ensures { pieces runs.new.items ≡ of_run run ++ pieces (take last runs.old.items) }
{
    if run.count > 0 {
        runs[last] = run;
    } else {
        runs.truncate(last);
    }
}

// Puts subtrees and a run in the place of the last one. Changes nothing where memory runs out.
fn put_subtrees(runs: &mut Vec<Run>, last: usize, subtrees: Run, run: Run) -> bool
    requires { last + 1 ≡ vec_len runs.old }
    ensures put { IsTrue result
        → pieces runs.new.items ≡ of_run subtrees ++ (of_run run ++ pieces (take last runs.old.items)) }
    ensures kept { result ≡ false → runs.new.items ≡ runs.old.items }
{
    if run.count == 0 {
        runs[last] = subtrees;
        return true;
    }
    let Ok(()) = runs.push(subtrees) else {
        return false;
    };
    runs[last] = run;
    true
}

// Takes the next piece, if there is one.
fn take_first(runs: &mut Vec<Run>) -> Option<Symbol>
    ensures none { result ≡ None → pieces runs.old.items ≡ [] }
    ensures some { IfSome result (λ x. pieces runs.old.items ≡ x ∷ pieces runs.new.items) }
{
    while let Some(last) = runs.len().checked_sub(1) {
        let run = runs[last];
        if run.count > 0 {
            put_last(runs, last, less_first(run));
            return Some(run.symbol);
        }
        runs.truncate(last);
    }
    None
}

// How many inner nodes lack subtrees where this piece comes next.
fn depth_at(symbol: Symbol) -> u32
    ensures { result ≡ depth_of (symbol ∷ []) }
{
    match symbol {
        Symbol::TreeAt(_, depth) | Symbol::Join(depth) => depth,
        _ => 0,
    }
}

// How many inner nodes lack subtrees where these pieces are to come.
fn depth_in(runs: &[Run]) -> u32
    ensures { result ≡ depth_of (pieces runs.now) }
{
    let mut place = runs.len();
    while place > 0 {
        place -= 1;
        let run = runs[place];
        if run.count > 0 {
            return depth_at(run.symbol);
        }
    }
    0
}

fn no_pieces(runs: &[Run]) -> bool
    ensures { result ≡ list_all (λ r. r.count == 0) runs.now }
{
    runs.iter().all(|run| run.count == 0)
}

impl Position {
    ghost use Rattle.std.specs.Prelude.{ℕ};
    ghost use Rattle.response_test.specs.declared.evidence.Evidence.{Evidence};
    ghost use Rattle.cert_text.specs.declared.line.Line.TheVariants as line;

    /// The position before the first line.
    pub fn new(alloc: Global) -> Result<Position, Memory>
        ensures { IfOk result (λ p. p ≡ start) }
    {
        let mut runs = Vec::new(alloc);
        put(&mut runs, once(Symbol::FromKind))?;
        put(&mut runs, once(Symbol::First))?;
        Ok(Position { runs })
    }

    /// Goes past a line. False exactly where it can't stand; what is to come isn't known then.
    pub fn take(&mut self, line: &Line) -> Result<bool, Memory>
        ensures taken { IfOk result (λ can. IsTrue can → after self.old line.now ≡ Some self.new) }
        ensures refused { IfOk result (λ can. IsTrue can ⊎ (after self.old line.now ≡ None)) }
    {
        let Some(symbol) = take_first(&mut self.runs) else {
            return Ok(false);
        };
        let Some(next) = next_of(symbol, line) else {
            return Ok(false);
        };
        put(&mut self.runs, next.second)?;
        put(&mut self.runs, next.first)?;
        Ok(true)
    }

    /// Goes past the line of a node, where a tree may stand. Nothing changes where that isn't told, or for want of memory.
    #[inline(always)]
    pub fn take_node(&mut self, node: Node) -> bool
        ensures taken { IsTrue result → after self.old (node_line node) ≡ Some self.new }
        ensures kept { result ≡ false → self.new ≡ self.old }
    {
        let Some(last) = self.runs.len().checked_sub(1) else {
            return false;
        };
        let run = self.runs[last];
        let Symbol::TreeAt(marks, depth) = run.symbol else {
            return false;
        };
        if run.count == 0 {
            return false;
        }
        let rest = less_first(run);
        match node {
            Node::Inner(count) if depth < DEEPEST => {
                let symbol = Symbol::TreeAt(marks, depth + 1);
                put_subtrees(&mut self.runs, last, Run { symbol, count }, rest)
            }
            Node::Inner(_) => false,
            Node::Bound | Node::Open | Node::Fail => {
                put_last(&mut self.runs, last, rest);
                true
            }
        }
    }

    /// Goes past the line of a fail leaf with so much evidence, where a tree may stand. Nothing changes where
    /// that isn't told, or for want of memory.
    pub fn take_fail(&mut self, count: u32) -> bool
        ensures taken { IsTrue result → after self.old (line.FailLine count) ≡ Some self.new }
        ensures kept { result ≡ false → self.new ≡ self.old }
    {
        let Some(last) = self.runs.len().checked_sub(1) else {
            return false;
        };
        let run = self.runs[last];
        let Symbol::TreeAt(_, _) = run.symbol else {
            return false;
        };
        if run.count == 0 {
            return false;
        }
        let evidence = Run {
            symbol: Symbol::Against,
            count,
        };
        put_subtrees(&mut self.runs, last, evidence, less_first(run))
    }

    /// Goes past a line of evidence, where one may stand. Nothing changes where that isn't told.
    #[inline(always)]
    pub fn take_against(&mut self) -> bool
        ensures taken { IsTrue result
            → (label : ℕ) (e : Evidence) → after self.old (line.AgainstLine label e) ≡ Some self.new }
        ensures kept { result ≡ false → self.new ≡ self.old }
    {
        let Some(last) = self.runs.len().checked_sub(1) else {
            return false;
        };
        let run = self.runs[last];
        let Symbol::Against = run.symbol else {
            return false;
        };
        if run.count == 0 {
            return false;
        }
        put_last(&mut self.runs, last, less_first(run));
        true
    }

    /// How many inner nodes lack subtrees.
    pub fn depth(&self) -> usize
        ensures { result ≡ depth_of self.now }
    {
        depth_in(&self.runs) as usize
    }

    /// Whether nothing is to come any more.
    pub fn ended(&self) -> bool
        ensures { IsTrue result ↔ (self.now ≡ []) }
    {
        no_pieces(&self.runs)
    }
}
