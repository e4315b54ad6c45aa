//! Signals one after another.
ghost use Rattle.std.specs.Prelude.{◌≡◌, ◌≤◌, All, EachIndex, length, slice_index, sum};
ghost use Rattle.ipdu_layout.specs.Layout.{PlacesStand, bytes_of, places_of, start_of};
ghost use Rattle.ipdu_layout.specs.declared.sequence.TheConstants.{MAX_BITS, MAX_SIGNALS};

/// How many signals [`lay`] takes at most.
pub const MAX_SIGNALS: usize = 512;

/// How many bits a signal of [`lay`] has at most.
pub const MAX_BITS: u32 = 512;

/// Lays signals of these numbers of bits one after another from position 0: writes where each
/// starts, and answers how many bytes hold them all.
pub fn lay(bits: &[u32], starts: &mut [u32]) -> u32
    requires same_length { length bits.now ≡ length starts.old }
    requires few { length bits.now ≤ MAX_SIGNALS }
    requires in_range { All (λ width. (1 ≤ width) × (width ≤ MAX_BITS)) bits.now }
    ensures starts { EachIndex starts.new (λ k. slice_index starts.new k ≡ start_of bits.now k) }
    ensures bytes { result ≡ bytes_of (sum bits.now) }
    ensures stand { PlacesStand (places_of starts.new bits.now) result }
{
    let mut next = 0;
    for (number, &width) in bits.iter().enumerate() {
        starts[number] = next;
        next += width;
    }
    next.div_ceil(8)
}
