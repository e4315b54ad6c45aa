//! Draws by a linear congruence.

/// The state from which numbers are drawn.
#[derive(Debug, Drop)]
pub(crate) struct Draws {
    state: u32,
}

impl Draws {
    ghost use Rattle.std.specs.Prelude.{◌≡◌, ◌≤◌, ◌<◌};
    ghost use Rattle.case_gen.specs.Draws.{next_state, drawn};

    /// Draws from this state on.
    pub(crate) fn from(state: u32) -> Draws
        ensures { result.state ≡ state }
    {
        Draws { state }
    }

    #[tactic(auto, unfolding(crate::specs::Draws::next_state))]
    /// A number below `limit`, which is at least 1.
    pub(crate) fn below(&mut self, limit: u32) -> u32
        requires { 1 ≤ limit }
        ensures value { result ≡ drawn limit self.old.state }
        ensures below { result < limit }
        ensures state { self.new.state ≡ next_state self.old.state }
    {
        self.state = ((1_103_515_245 * u64::from(self.state) + 12345) % (1 << 31)) as u32;
        self.state / 65536 % limit
    }
}
