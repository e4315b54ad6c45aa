//! The network of one CAN FD bus.
ghost use Rattle.std.specs.Prelude.{IsTrue, ◌↔◌};
ghost use Rattle.pack_model.specs.Network.{NetworkStands};

/// The bit lengths of one CAN FD bus (ISO 11898-1) and the first identifier to give.
#[derive(Clone, Copy, Debug, PartialEq, Eq)]
pub struct Network {
    /// Ticks in a microsecond, 1 to 1000.
    pub ticks_per_us: u32,
    /// Length of a nominal bit in ticks, 1 to 10000.
    pub nominal_ticks: u32,
    /// Length of a data bit in ticks, 1 to `nominal_ticks`.
    pub data_ticks: u32,
    /// The first frame identifier that the planner gives, 0 to 1920.
    pub first_id: u32,
}

/// Whether each figure of the network is in its range.
pub fn network_stands(network: &Network) -> bool
    ensures { IsTrue result ↔ NetworkStands network.now }
{
    (1..=1000).contains(&network.ticks_per_us)
        && (1..=10000).contains(&network.nominal_ticks)
        && (1..=network.nominal_ticks).contains(&network.data_ticks)
        && network.first_id <= 1920
}
