//! The common period of the signals.
ghost use Rattle.std.specs.Prelude.{◌≡◌, ◌≤◌, ◌<◌, All, MatchOption};
ghost use Rattle.std.specs.Int.{IsGcd};
ghost use Rattle.pack_model.specs.Network.{NetworkStands};
ghost use Rattle.pack_model.specs.Signal.{SignalStands};
ghost use Rattle.pack_model.specs.Problem.{lcm, hyper_of};

use crate::network::Network;
use crate::signal::Signal;

/// The longest common period of a problem, in ticks: 10^15.
pub const MAX_HYPER: u64 = 1_000_000_000_000_000;

/// The least common multiple of the signals' periods in ticks, or none where it is above 10^15.
pub fn common_period(network: &Network, signals: &[Signal]) -> Option<u64>
    requires network { NetworkStands network.now }
    requires signals { All SignalStands signals.now }
    ensures { MatchOption result (MAX_HYPER < hyper_of network.now signals.now)
        (λ hyper. (hyper ≡ hyper_of network.now signals.now) × (hyper ≤ MAX_HYPER)) }
{
    let mut hyper: u64 = 1;
    for signal in signals {
        let period = u64::from(network.ticks_per_us) * u64::from(signal.period_us);
        let Some(multiple) = common_multiple(hyper, period) else {
            return None;
        };
        hyper = multiple;
    }
    Some(hyper)
}

/// The least common multiple of two numbers, or none where it is above 10^15.
fn common_multiple(a: u64, b: u64) -> Option<u64>
    requires a_low { 1 ≤ a }
    requires a_high { a ≤ MAX_HYPER }
    requires b_low { 1 ≤ b }
    requires b_high { b ≤ 100000000000 }
    ensures { MatchOption result (MAX_HYPER < lcm a b)
        (λ multiple. (multiple ≡ lcm a b) × (multiple ≤ MAX_HYPER)) }
{
    let multiple = u128::from(a) * u128::from(b / common_divisor(a, b));
    if multiple > u128::from(MAX_HYPER) {
        None
    } else {
        Some(multiple as u64)
    }
}

/// The greatest common divisor of two numbers.
fn common_divisor(a: u64, b: u64) -> u64
    ensures { IsGcd a b result }
{
    let mut dividend = a;
    let mut divisor = b;
    while divisor != 0 {
        let rest = dividend % divisor;
        dividend = divisor;
        divisor = rest;
    }
    dividend
}
