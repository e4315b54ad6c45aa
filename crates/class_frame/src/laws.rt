//! Laws of a class as a frame.
ghost use Rattle.class_frame.specs.Laws.{BitWithin, FrameInRange, MoreIsHarder, PeriodDivides};

/// With more items, within 64 bytes, a frame takes no fewer ticks and has no less jitter, and neither its period nor its
/// deadline is greater.
pub fn more_is_harder()
    ensures { MoreIsHarder }
{}

/// A frame's period divides the common period of its problem.
pub fn period_divides()
    ensures { PeriodDivides }
{}

/// A nominal bit is no longer than a frame.
pub fn bit_within()
    ensures { BitWithin }
{}

/// The times of a frame are within the limits of a stage of the response-time test.
pub fn frame_in_range()
    ensures { FrameInRange }
{}
