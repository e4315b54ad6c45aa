//! Decimals.
ghost use Rattle.std.specs.Prelude.{◌≡◌, ◌&&◌, ◌≤◌, ℕ, nat_le, Some, None, IfSome, decimal, if◌then◌else◌};
ghost use Rattle.std.specs.Str.{all_ascii_digits};
ghost use Rattle.csv_table.specs.Decimal.{decimal_of, value_after};

// The number that digits alone spell, up to a limit.
fn digits_up_to(bytes: &[u8], limit: u64) -> Option<u64>
    ensures { result ≡ (if all_ascii_digits bytes.now && nat_le (value_after 0 bytes.now) limit
        then Some (value_after 0 bytes.now) else None) }
{
    let limit = u128::from(limit);
    let mut value: u128 = 0;
    for byte in bytes {
        if !byte.is_ascii_digit() {
            return None;
        }
        value = value * 10 + u128::from(*byte - b'0');
        if value > limit {
            return None;
        }
    }
    Some(value as u64)
}

fn read_decimal(bytes: &[u8], low: u64, high: u64) -> Option<u64>
    ensures { result ≡ decimal_of low high bytes.now }
{
    if bytes.is_empty() || bytes.len() > 1 && bytes[0] == b'0' {
        return None;
    }
    digits_up_to(bytes, high).filter(|value| low <= *value)
}

/// The number from `low` to `high` that the bytes spell in decimal: digits alone, and no leading zero other
/// than `0` itself. None for all other bytes.
pub fn decimal_in(bytes: &[u8], low: u64, high: u64) -> Option<u64>
    ensures exact { result ≡ decimal_of low high bytes.now }
    // The bytes are the spelling of a number in the range.
    ensures spelled { IfSome result (λ n. (bytes.now ≡ decimal n) × (low ≤ n) × (n ≤ high)) }
    // Each such spelling is read.
    ensures each { (n : ℕ) → low ≤ n → n ≤ high → bytes.now ≡ decimal n → result ≡ Some n }
{
    read_decimal(bytes, low, high)
}
