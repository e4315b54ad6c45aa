ghost use Rattle.std.specs.Prelude.{◌≡◌, ℕ, ◌-◌, ◌*◌, ◌≤◌, ◌↔◌, Some, IsTrue, min, nat_le, if◌then◌else◌};
ghost use Rattle.std.specs.Option.{IsSomeAnd};
ghost use Rattle.busy_period.specs.Timed.{IsInRange};

use busy_period::{MAX_INSTANCES, Timed};

/// What the frames of a level ask for.
#[derive(Clone, Copy)]
pub(crate) struct Once {
    /// The ticks of one sending of each.
    pub(crate) ticks: u64,
    /// A time in ticks within which none of them asks twice.
    pub(crate) window: u64,
    /// A busy period of the level, not needing to be the least; none where none is known.
    pub(crate) busy: Option<u64>,
}

/// A busy period of a level whose frames, one sending of each, and a lower one ask for `asked` ticks;
/// none where none is known.
pub(crate) fn busy_by(once: Once, asked: u64) -> Option<u64>
    ensures { result ≡ (if nat_le asked once.window then Some asked else once.busy) }
{
    if asked <= once.window {
        Some(asked)
    } else {
        once.busy
    }
}

/// Whether a frame that ends with a busy period of its level ends by its deadline and within 256
/// instances; not where no busy period is known.
pub(crate) fn ends_with(own: Timed, busy: Option<u64>) -> bool
    requires { IsInRange own }
    ensures { IsTrue result
        ↔ IsSomeAnd busy (λ time. time ≤ min own.deadline (256 * own.period) - own.jitter) }
{
    match busy {
        Some(time) => {
            let last = own.deadline.min(MAX_INSTANCES * own.period);
            time <= last.saturating_sub(own.jitter)
        }
        None => false,
    }
}
