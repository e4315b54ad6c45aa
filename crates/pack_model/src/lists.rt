//! The small list types of the project: contracts see each of them as the list that it holds.
ghost use Rattle.std.specs.Prelude.{◌≡◌, ◌<◌, ℕ, List, length, slice_set};

use std::marker::Model;

/// The data bytes of a frame or of a part of one, in the order sent.
#[derive(Debug, Drop)]
pub struct Payload {
    items: Vec<u8>,
}

impl Model for Payload {
    ghost Value = { List ℕ };

    ghost view = { λ a. a.items.items };
}

impl Payload {
    /// The list of these items.
    pub fn of(items: Vec<u8>) -> Payload
        ensures { result ≡ items.items }
    {
        Payload { items }
    }

    /// The items, in order.
    pub fn as_slice(&self) -> &[u8]
        ensures { result.now ≡ self.now }
    {
        self.items.as_slice()
    }

    /// The items, in a vector of their own.
    pub fn into_vec(self) -> Vec<u8>
        ensures { result.items ≡ self }
    {
        let Payload { items } = self;
        items
    }

    /// Writes one byte of the payload.
    pub fn set(&mut self, at: usize, byte: u8)
        requires { at < length self.old }
        ensures { self.new ≡ slice_set self.old at byte }
    {
        self.items[at] = byte;
    }
}

/// Labels of items, or places in a list, each below 2^32.
#[derive(Debug, Drop)]
pub struct Labels {
    items: Vec<u32>,
}

impl Model for Labels {
    ghost Value = { List ℕ };

    ghost view = { λ a. a.items.items };
}

impl Labels {
    /// The list of these items.
    pub fn of(items: Vec<u32>) -> Labels
        ensures { result ≡ items.items }
    {
        Labels { items }
    }

    /// The items, in order.
    pub fn as_slice(&self) -> &[u32]
        ensures { result.now ≡ self.now }
    {
        self.items.as_slice()
    }

    /// The items, in a vector of their own.
    pub fn into_vec(self) -> Vec<u32>
        ensures { result.items ≡ self }
    {
        let Labels { items } = self;
        items
    }
}

/// A chain of times in ticks.
#[derive(Debug, Drop)]
pub struct Chain {
    items: Vec<u64>,
}

impl Model for Chain {
    ghost Value = { List ℕ };

    ghost view = { λ a. a.items.items };
}

impl Chain {
    /// The list of these items.
    pub fn of(items: Vec<u64>) -> Chain
        ensures { result ≡ items.items }
    {
        Chain { items }
    }

    /// The items, in order.
    pub fn as_slice(&self) -> &[u64]
        ensures { result.now ≡ self.now }
    {
        self.items.as_slice()
    }

    /// The items, in a vector of their own.
    pub fn into_vec(self) -> Vec<u64>
        ensures { result.items ≡ self }
    {
        let Chain { items } = self;
        items
    }
}

/// Loads or bounds, in ticks or in eighths of ticks a common period.
#[derive(Debug, Drop)]
pub struct Values {
    items: Vec<u128>,
}

impl Model for Values {
    ghost Value = { List ℕ };

    ghost view = { λ a. a.items.items };
}

impl Values {
    /// The list of these items.
    pub fn of(items: Vec<u128>) -> Values
        ensures { result ≡ items.items }
    {
        Values { items }
    }

    /// The items, in order.
    pub fn as_slice(&self) -> &[u128]
        ensures { result.now ≡ self.now }
    {
        self.items.as_slice()
    }

    /// The items, in a vector of their own.
    pub fn into_vec(self) -> Vec<u128>
        ensures { result.items ≡ self }
    {
        let Values { items } = self;
        items
    }
}
