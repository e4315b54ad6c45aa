//! Evidence against a frame.
use pack_model::Chain;

/// Why a frame doesn't pass the written test, whatever the order of the frames above it. All times are whole ticks.
#[derive(Debug, Drop)]
pub enum Evidence {
    /// The own and the higher frames ask for more than the whole bus.
    Over,
    /// Times that climb past the limit of a busy period within 256 instances.
    Long(Chain),
    /// An instance that ends after its deadline.
    Late {
        /// The number of the instance in the busy period, from 0.
        q: u64,
        /// Times that climb up to a busy period with the instance in it.
        busy: Chain,
        /// Times that climb past the latest at which the instance can start and still end by its deadline.
        queue: Chain,
    },
}

#[cfg(test)]
mod tests {
    use super::*;

    fn are_shared<T: Send + Sync>() {}

    #[test]
    fn evidence_is_shared() {
        are_shared::<Evidence>();
    }
}
