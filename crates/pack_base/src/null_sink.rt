//! A sink that takes everything.
ghost use Rattle.std.specs.Prelude.{◌≡◌, ◌≤◌, None, IsOk, OnOk, OnErr};
ghost use Rattle.pack_base.specs.Counts.{HasCause};
ghost use Rattle.pack_base.specs.Outside.{SaidPart, and_said};

use crate::outside::{Failed, Sink};

/// Takes everything, tells nothing and never fails.
#[derive(Clone, Copy, Debug)]
pub struct NullSink;

impl Sink for NullSink {
    ghost said = { λ sink. None };

    ghost faults = { λ sink. 0 };

    fn say(&mut self, _bytes: &[u8]) -> Result<(), Failed> {
        Ok(())
    }
}
