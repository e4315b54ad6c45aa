//! A number where it stands.
ghost use Rattle.std.specs.Prelude.{◌≡◌, ◌<◌, ◌++◌, ◌∷◌, ◌^◌, IfSome, decimal, length};

/// With a digit more a number up to this one is below 2^64.
const FITS: u64 = 1_844_674_407_370_955_160;

/// The number whose digits the bytes begin with, the byte that ends them, and the bytes after it. None for all other
/// bytes, and for some numbers from ten times `FITS` on.
#[inline(always)]
pub(crate) fn number_ended(bytes: &[u8]) -> Option<(u64, u8, &[u8])>
    ensures text { IfSome result (λ x. bytes.now ≡ decimal x.0 ++ x.1 ∷ x.2.now) }
    ensures small { IfSome result (λ x. x.0 < 2 ^ 64) }
    ensures shorter { IfSome result (λ x. length x.2.now < length bytes.now) }
{
    let (first, rest) = bytes.split_first()?;
    if !first.is_ascii_digit() {
        return None;
    }
    let mut value = u64::from(*first - b'0');
    for (place, byte) in rest.iter().enumerate() {
        if !byte.is_ascii_digit() {
            return Some((value, *byte, &rest[place + 1..]));
        }
        if *first == b'0' || value > FITS {
            return None;
        }
        value = value * 10 + u64::from(*byte - b'0');
    }
    None
}

/// The number whose digits stand up to the first byte of this value, and the bytes after it. None for all other
/// bytes, and for some numbers from ten times `FITS` on.
#[inline(always)]
pub(crate) fn number_until(bytes: &[u8], end: u8) -> Option<(u64, &[u8])>
    ensures text { IfSome result (λ x. bytes.now ≡ decimal x.0 ++ end ∷ x.1.now) }
    ensures small { IfSome result (λ x. x.0 < 2 ^ 64) }
    ensures shorter { IfSome result (λ x. length x.1.now < length bytes.now) }
{
    let (value, byte, after) = number_ended(bytes)?;
    if byte != end {
        return None;
    }
    Some((value, after))
}
