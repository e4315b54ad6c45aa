//! What is found at a place of a search.
use cert_text::Refuted;
use pack_model::Labels;

/// What is found at a partial grouping.
#[derive(Debug, Drop)]
pub enum Finding {
    /// The lower bound reaches the best load.
    Bounded,
    /// No order lets each frame of the classes so far pass: these classes fail, by this evidence.
    Failed(Refuted),
    /// Each item has a label, and the load is less than the best.
    Complete {
        /// The load, in ticks a common period.
        load: u128,
        /// An order of the classes, from the highest priority down, where one was asked for.
        order: Labels,
    },
    /// Items are left, and nothing is known against the groupings that go on from here.
    Parted,
}

/// A grouping of all items that a search found.
#[derive(Debug, Drop)]
pub struct Found {
    /// A label for each item, numbered by first use.
    pub labels: Labels,
    /// The order of its classes, from the highest priority down, where one was asked for.
    pub order: Labels,
    /// Its load, in ticks a common period.
    pub load: u128,
}
