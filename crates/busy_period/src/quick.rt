ghost use Rattle.std.specs.Prelude.{ℕ, ◌≤◌, ◌<◌, ◌*◌, ◌^◌};
ghost use Rattle.busy_period.specs.Timed.{IsInRange};
ghost use Rattle.busy_period.specs.Stage.{AreNamed};
ghost use Rattle.busy_period.specs.Demand.{instances_of, work_of};
ghost use Rattle.busy_period.specs.Busy.{IsFit};
ghost use Rattle.busy_period.specs.Quick.{AreInverses};

use crate::timed::{MAX_FRAMES, Timed};

/// How many quick steps follow a leap: a leap and the inverses cost some fifty of them.
const QUICK_STEPS: u32 = 512;

/// An inverse is in parts of this many.
const WHOLE: u128 = 18_446_744_073_709_551_616;

/// The inverses of the periods of the frames of these numbers, rounded down.
fn inverses_of(frames: &[Timed], numbers: &[u32]) -> [u64; MAX_FRAMES]
    requires { AreNamed frames.now numbers.now }
    ensures { AreInverses frames.now numbers.now result }
{
    let mut inverses = [0; MAX_FRAMES];
    for (index, &number) in numbers.iter().enumerate() {
        inverses[index] = u64::MAX / frames[number as usize].period;
    }
    inverses
}

/// The instances of a frame that are queued within `time` ticks, or fewer: those that a product with the
/// inverse of its period gives. `time` is at least 1, and at most 2^46.
fn quick_instances(frame: Timed, inverse: u64, time: u64) -> u64
    requires range { IsInRange frame }
    requires inverse { inverse * frame.period < 2 ^ 64 }
    requires some { 1 ≤ time }
    requires time { time ≤ 2 ^ 46 }
    ensures fewer { result ≤ instances_of frame time }
    ensures bound { result ≤ 2 ^ 47 }
{
    let product = u128::from(time + frame.jitter) * u128::from(inverse);
    (product / WHOLE) as u64 + 1
}

/// What the frames of these numbers ask for within `time` ticks, or less, without a division.
fn quick_work(frames: &[Timed], numbers: &[u32], inverses: &[u64], time: u64) -> u128
    requires named { AreNamed frames.now numbers.now }
    requires inverses { AreInverses frames.now numbers.now inverses.now }
    requires some { 1 ≤ time }
    requires time { time ≤ 2 ^ 46 }
    ensures less { result ≤ work_of frames.now numbers.now time }
    ensures bound { result < 2 ^ 81 }
{
    let mut total = 0;
    for (index, &number) in numbers.iter().enumerate() {
        let frame = frames[number as usize];
        let instances = quick_instances(frame, inverses[index], time);
        total += u128::from(instances) * u128::from(frame.ticks);
    }
    total
}

/// A time from `time` to `limit` that no fit from `time` on is before: it climbs by quick steps.
#[inline(never)]
pub(crate) fn quick_climb(
    frames: &[Timed],
    numbers: &[u32],
    base: u64,
    ahead: u64,
    time: u64,
    limit: u64,
) -> u64
    requires named { AreNamed frames.now numbers.now }
    requires ahead { ahead ≤ 2 ^ 45 }
    requires limit { limit ≤ 2 ^ 45 }
    requires some { 1 ≤ time }
    requires within { time ≤ limit }
    ensures from { time ≤ result }
    ensures within { result ≤ limit }
    ensures below { (later : ℕ) → IsFit frames.now numbers.now base ahead time later → result ≤ later }
{
    let inverses = inverses_of(frames, numbers);
    let mut reached = time;
    for _ in 0..QUICK_STEPS {
        let asked = u128::from(base) + quick_work(frames, numbers, &inverses, reached + ahead);
        if asked <= u128::from(reached) || asked > u128::from(limit) {
            return reached;
        }
        reached = asked as u64;
    }
    reached
}
