ghost use Rattle.std.specs.Prelude.{◌≡◌, ℕ, ◌+◌, ◌-◌, ◌<◌, ◌≤◌, ◌^◌, ◌↔◌, ◌⊎◌, false, length, IsTrue, IfSome, IfNone};
ghost use Rattle.busy_period.specs.Stage.{AreNamed, own_number, higher_of};
ghost use Rattle.busy_period.specs.Timed.{IsInRange};
ghost use Rattle.busy_period.specs.Busy.{IsFit};
ghost use Rattle.response_test.specs.Queueing.{IsBit};
ghost use Rattle.response_test.specs.Frame.{PassesBlocked};
ghost use Rattle.priority_assign.specs.Level.{moved_last, PassesAt, IsLastPassing};
ghost use Rattle.priority_assign.specs.Once.{IsOnce};
ghost use Rattle.priority_assign.specs.Times.{NoneBefore, AreTimes, IsLateByLevel};

use crate::in_time::last_in_time;
use crate::once::{Once, busy_by, ends_with};
use busy_period::{MAX_INSTANCES, Timed, least_fit};
use response_test::last_passes;

/// The most ticks of a busy period that counts: so many of the greatest period.
const MAX_LIMIT: u64 = MAX_INSTANCES * 100_000_000_000;

/// Times of a level that tell of most of its frames whether they pass.
#[derive(Clone, Copy)]
struct Times {
    /// The ticks that block and one sending of each frame of the level.
    asked: u64,
    /// No time before this holds all that the frames of the level ask for within it.
    first: u64,
    /// The busy period of the level.
    busy: u64,
}

/// Whether a frame that its level's first time is late for is late: it has one instance by its deadline,
/// and is blocked for about as long as it is sent, or longer.
fn is_late_by_first(own: Timed, blocked: u64, bit: u64) -> bool
    requires blocked { blocked ≤ 100000000 }
    requires bit { bit ≤ own.ticks }
    requires range { IsInRange own }
{
    own.ticks <= blocked + bit && own.deadline <= own.period
}

/// The first time of at least a tick that holds all that the frames of a level ask for within it, where it
/// is sought, and else a tick. None only where no time up to the limit does.
fn first_of(frames: &[Timed], level: &[u32], sought: bool) -> Option<u64>
    requires { AreNamed frames.now level.now }
    ensures none_before { IfSome result (NoneBefore frames.now level.now) }
    ensures some { IfSome result (λ first. 1 ≤ first) }
    ensures within { IfSome result (λ first. first ≤ MAX_LIMIT) }
    ensures none { IfNone result ((time : ℕ) → IsFit frames.now level.now 0 0 1 time → MAX_LIMIT < time) }
{
    if sought {
        least_fit(frames, level, 0, 0, 1, MAX_LIMIT)
    } else {
        Some(1)
    }
}

/// Whether a frame of a level may pass: not where it is late after one sending of each frame of the
/// level, nor where it has one instance by its deadline and is late by the level's first time.
fn may_pass(own: Timed, blocked: u64, bit: u64, times: Times) -> bool
    requires range { IsInRange own }
    requires blocked { blocked ≤ 100000000 }
    requires bit { bit ≤ own.ticks }
    requires asked { times.asked ≤ 2 ^ 46 }
    requires first { times.first ≤ 2 ^ 46 }
    ensures { result ≡ false → own.deadline < own.jitter + times.asked
        ⊎ IsLateByLevel own blocked bit times.first }
{
    if own.jitter + times.asked > own.deadline {
        return false;
    }
    own.ticks > blocked + bit
        || own.deadline > own.period
        || own.jitter + times.first + own.ticks <= own.deadline + bit
}

/// Whether the frame at the end of a level passes with the others of the level higher; lower frames
/// block for `blocked` ticks. Most are told by the times of the level alone.
fn end_passes(frames: &[Timed], level: &[u32], blocked: u64, bit: u64, times: Times) -> bool
    requires some { 0 < length level.now }
    requires named { AreNamed frames.now level.now }
    requires bit { IsBit frames.now bit }
    requires blocked { blocked ≤ 100000000 }
    requires times { AreTimes frames.now level.now blocked times }
    ensures { IsTrue result
        ↔ PassesBlocked frames.now (own_number level.now (length level.now - 1))
        (higher_of level.now (length level.now - 1)) blocked bit }
{
    let own = frames[level[level.len() - 1] as usize];
    may_pass(own, blocked, bit, times) && last_passes(frames, level, blocked, bit, times.busy)
}

/// Chooses as `choose_last` does, by the test of each frame in turn.
fn choose_tested(
    frames: &[Timed],
    bit: u64,
    blocked: u64,
    times: Times,
    level: &mut [u32],
) -> Option<usize>
    requires some { 0 < length level.old }
    requires named { AreNamed frames.now level.old }
    requires bit { IsBit frames.now bit }
    requires blocked { blocked ≤ 100000000 }
    requires times { AreTimes frames.now level.old blocked times }
    ensures chosen { IfSome result (IsLastPassing frames.now level.old blocked bit) }
    ensures moved { IfSome result (λ index. level.new ≡ moved_last level.old index) }
    ensures none { IfNone result ((index : ℕ) → index < length level.old
        → ¬ (PassesAt frames.now level.old blocked bit index)) }
    ensures same { IfNone result (level.new ≡ level.old) }
{
    let last = level.len() - 1;
    if end_passes(frames, level, blocked, bit, times) {
        return Some(last);
    }
    for index in (0..last).rev() {
        level.swap(index, last);
        if end_passes(frames, level, blocked, bit, times) {
            return Some(index);
        }
    }
    level.rotate_right(1);
    None
}

/// Moves the last frame of a level that passes with the others of the level higher to the level's end,
/// and says where it was; lower frames block for `blocked` ticks, and `once` is what the level's frames
/// ask for. None exactly where none passes; the level is as before then. A frame that is late even if
/// each of the level is sent once fails; the last other one passes where it ends by its deadline with a
/// busy period of the level. The least one is sought where none that is known tells, and is known then.
pub(crate) fn choose_last(
    frames: &[Timed],
    bit: u64,
    blocked: u64,
    once: &mut Once,
    level: &mut [u32],
) -> Option<usize>
    requires some { 0 < length level.old }
    requires named { AreNamed frames.now level.old }
    requires bit { IsBit frames.now bit }
    requires blocked { blocked ≤ 100000000 }
    requires once { IsOnce frames.now level.old blocked once.old }
    ensures chosen { IfSome result (IsLastPassing frames.now level.old blocked bit) }
    ensures moved { IfSome result (λ index. level.new ≡ moved_last level.old index) }
    ensures none { IfNone result ((index : ℕ) → index < length level.old
        → ¬ (PassesAt frames.now level.old blocked bit index)) }
    ensures same { IfNone result (level.new ≡ level.old) }
    ensures once { IsOnce frames.now level.old blocked once.new }
{
    let asked = blocked + once.ticks;
    let index = last_in_time(frames, level, asked)?;
    let own = frames[level[index] as usize];
    if ends_with(own, busy_by(*once, asked)) {
        level[index..].rotate_left(1);
        return Some(index);
    }
    let first = first_of(frames, level, is_late_by_first(own, blocked, bit))?;
    let busy = least_fit(frames, level, blocked, 0, first + blocked, MAX_LIMIT)?;
    once.busy = Some(busy);
    if ends_with(own, Some(busy)) {
        level[index..].rotate_left(1);
        return Some(index);
    }
    let times = Times { asked, first, busy };
    choose_tested(frames, bit, blocked, times, level)
}
