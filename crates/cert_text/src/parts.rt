//! What a certificate says.
ghost use Rattle.std.specs.Prelude.{◌≡◌, map};
ghost use Rattle.std.specs.Option.{option_copied, option_map};
ghost use Rattle.cert_text.specs.Parts.{HasParts};
ghost use Rattle.cert_text.specs.PlainTree.{plain_lemma, plain_of};

use pack_model::Chain;
use response_test::Evidence;
use std::marker::Model;

/// What a certificate is to show.
#[derive(Clone, Copy, Debug, PartialEq, Eq)]
pub enum Kind {
    /// The matrix is placed.
    KindPlaced,
    /// It is placed, and each frame passes the written test.
    KindTimed,
    /// Its load is at most so much above the least.
    KindBetween,
    /// Its load is the least.
    KindBest,
    /// No grouping has an order in which each frame passes.
    KindNoSolution,
}

/// The classes of a failing set, each by its label, with the evidence against it.
#[derive(Debug, Drop)]
pub struct Refuted {
    items: Vec<(u32, Evidence)>,
}

impl Model for Refuted {
    ghost use Rattle.std.specs.Prelude.{List, ℕ};
    ghost use Rattle.response_test.specs.declared.evidence.Evidence.{Evidence};

    ghost Value = { List (ℕ × Evidence) };

    ghost view = { λ a. a.items.items };
}

impl Refuted {
    /// The list of these items.
    pub fn of(items: Vec<(u32, Evidence)>) -> Refuted
        ensures { result ≡ items.items }
    {
        Refuted { items }
    }

    /// The items, in order.
    pub fn as_slice(&self) -> &[(u32, Evidence)]
        ensures { result.now ≡ self.now }
    {
        self.items.as_slice()
    }

    /// The items, in a vector of their own.
    pub fn into_vec(self) -> Vec<(u32, Evidence)>
        ensures { result.items ≡ self }
    {
        let Refuted { items } = self;
        items
    }
}

/// A tree over the partial groupings that extend the one that it stands at.
#[derive(Debug, Drop)]
pub enum Tree {
    /// The next item is put in each way there is, in turn.
    Inner(Vec<Tree>),
    /// No grouping here is better, by the lower bound.
    Bound,
    /// What is here is left open.
    Left,
    /// No grouping here has an order in which each frame passes.
    Fail(Refuted),
}

/// What shows that a frame passes the written test, in ticks.
#[derive(Debug, Drop)]
pub struct FrameLine {
    /// The length of the frame's busy period.
    pub busy: u64,
    /// When each instance in it can start, from the instance 0 on.
    pub queue: Chain,
}

/// A lower bound on the load of one sender alone.
#[derive(Debug, Drop)]
pub struct Lemma {
    /// The sender's number, from 0.
    pub sender: u32,
    /// The bound, in eighths of ticks in a common period.
    pub value: u128,
    /// The tree that shows it.
    pub tree: Tree,
}

/// A certificate: its kind, and the parts that the kind has.
#[derive(Debug, Drop)]
pub struct Cert {
    kind: Kind,
    frames: Vec<FrameLine>,
    lemmas: Vec<Lemma>,
    main_tree: Option<Tree>,
}

impl Model for Cert {
    ghost use Rattle.std.specs.Prelude.{map};
    ghost use Rattle.std.specs.Option.{option_map};
    ghost use Rattle.std.specs.Coded.{codes};
    ghost use Rattle.cert_text.specs.Parts.{CertParts, HasParts};
    ghost use Rattle.cert_text.specs.PlainTree.{plain_lemma, plain_of};
    ghost use Rattle.cert_text.specs.TreeCode.{plain_code};

    ghost Value = { CertParts };

    ghost coded = { Prim.hlevel (codes, plain_code) };

    ghost view = { λ a. record {
      kind = a.kind;
      frames = a.frames.items;
      lemmas = map plain_lemma a.lemmas.items;
      main_tree = option_map plain_of a.main_tree;
    } };

    ghost invariant = { λ a.
        HasParts a.kind a.frames.items (map plain_lemma a.lemmas.items) (option_map plain_of a.main_tree) };
}

impl Cert {
    /// The certificate of these parts, which are those that the kind has: `KindPlaced` none, `KindTimed` frames, and
    /// each other kind frames, lemmas and a main tree.
    pub fn of(
        kind: Kind,
        frames: Vec<FrameLine>,
        lemmas: Vec<Lemma>,
        main_tree: Option<Tree>,
    ) -> Cert
        requires { HasParts kind frames.items (map plain_lemma lemmas.items) (option_map plain_of main_tree) }
        ensures { result ≡ record {
          kind = kind;
          frames = frames.items;
          lemmas = map plain_lemma lemmas.items;
          main_tree = option_map plain_of main_tree;
        } }
    {
        Cert {
            kind,
            frames,
            lemmas,
            main_tree,
        }
    }

    /// What it is to show.
    pub fn kind(&self) -> Kind
        ensures value { result ≡ self.now.kind }
        // The parts are those that the kind has.
        ensures has_parts { HasParts self.now.kind self.now.frames self.now.lemmas self.now.main_tree }
    {
        self.kind
    }

    /// A line for each frame, by ascending identifier.
    pub fn frames(&self) -> &[FrameLine]
        ensures { result.now ≡ self.now.frames }
    {
        self.frames.as_slice()
    }

    /// The bounds on senders alone.
    pub fn lemmas(&self) -> &[Lemma]
        ensures { map plain_lemma result.now ≡ self.now.lemmas }
    {
        self.lemmas.as_slice()
    }

    /// The tree over all groupings.
    pub fn main_tree(&self) -> Option<&Tree>
        ensures { option_map plain_of (option_copied result) ≡ self.now.main_tree }
    {
        self.main_tree.as_ref()
    }
}
