ghost use Rattle.std.specs.Prelude.{◌≡◌, ◌<◌, ◌≤◌, ◌&&◌, nat_le, IfSome, Some, None, if◌then◌else◌};
ghost use Rattle.std.specs.List.{list_all, list_any, before_first, after_first};
ghost use Rattle.std.specs.Option.{option_copied};
ghost use Rattle.std.specs.Char.{is_ascii_digit};
ghost use Rattle.swf_text.specs.Limits.{whole_limit};
ghost use Rattle.swf_text.specs.Number.{number_of, begins_negative, unsigned_text, is_point, is_fraction, fraction_value, digits_value, are_digits, millionths_of, decimal_at};

use crate::value::{Value, signed_value};
use memchr::memchr;

/// The greatest whole part of a value.
pub(crate) const WHOLE_LIMIT: u64 = 1_000_000_000_000;

/// The greatest size of a value, in millionths.
pub(crate) const LIMIT: u64 = 1_000_000_000_000_000_000;

/// Whether the bytes are one digit or more. Takes no memory.
pub fn are_digits(bytes: &[u8]) -> bool
    ensures { result ≡ are_digits bytes.now }
{
    !bytes.is_empty() && all_digits(bytes)
}

fn all_digits(bytes: &[u8]) -> bool
    ensures { result ≡ list_all is_ascii_digit bytes.now }
{
    bytes.iter().all(|byte| byte.is_ascii_digit())
}

/// The number that the digits spell, where it is at most a trillion; None of other bytes, and of
/// none. Takes no memory.
pub fn read_digits(digits: &[u8]) -> Option<u64>
    ensures value { result ≡ (if are_digits digits.now && nat_le (digits_value digits.now) whole_limit then Some (digits_value digits.now) else None) }
    ensures small { IfSome result (λ n. n ≤ whole_limit) }
{
    if !are_digits(digits) {
        return None;
    }
    let mut value = 0u64;
    for byte in digits {
        value = (value * 10 + u64::from(byte.saturating_sub(b'0'))).min(WHOLE_LIMIT + 1);
    }
    if value <= WHOLE_LIMIT {
        Some(value)
    } else {
        None
    }
}

fn decimal_at(digits: &[u8], place: usize) -> u64
    ensures value { result ≡ decimal_at digits.now place }
    ensures small { result < 256 }
{
    match digits.get(place) {
        Some(byte) => u64::from(byte.saturating_sub(b'0')),
        None => 0,
    }
}

pub(crate) fn millionths(digits: &[u8]) -> u64
    ensures value { result ≡ millionths_of digits.now }
    ensures small { result < 100000000 }
{
    100_000 * decimal_at(digits, 0)
        + 10_000 * decimal_at(digits, 1)
        + 1_000 * decimal_at(digits, 2)
        + 100 * decimal_at(digits, 3)
        + 10 * decimal_at(digits, 4)
        + decimal_at(digits, 5)
}

pub(crate) fn split_sign(bytes: &[u8]) -> (bool, &[u8])
    ensures negative { result.0 ≡ begins_negative bytes.now }
    ensures rest { result.1.now ≡ unsigned_text bytes.now }
{
    match bytes {
        [b'-', rest @ ..] => (true, rest),
        _ => (false, bytes),
    }
}

fn split_point(bytes: &[u8]) -> (&[u8], Option<&[u8]>)
    ensures whole { result.0.now ≡ before_first is_point bytes.now }
    ensures fraction { option_copied result.1 ≡ (if list_any is_point bytes.now then Some (after_first is_point bytes.now) else None) }
{
    match memchr(b'.', bytes) {
        Some(point) => (&bytes[..point], Some(&bytes[point + 1..])),
        None => (bytes, None),
    }
}

fn fraction_value(digits: Option<&[u8]>) -> Option<u64>
    ensures value { result ≡ (if is_fraction (option_copied digits.entry) then Some (fraction_value (option_copied digits.entry)) else None) }
    ensures small { IfSome result (λ n. n < 100000000) }
{
    match digits {
        Some(digits) if !are_digits(digits) => None,
        Some(digits) => Some(millionths(digits)),
        None => Some(0),
    }
}

pub(crate) fn number(bytes: &[u8]) -> Option<Value>
    ensures { result ≡ number_of bytes.now }
{
    let (is_negative, unsigned) = split_sign(bytes);
    let (whole, fraction) = split_point(unsigned);
    let whole = read_digits(whole)?;
    let fraction = fraction_value(fraction)?;
    let magnitude = 1_000_000 * whole + fraction;
    if magnitude > LIMIT {
        return None;
    }
    Some(signed_value(is_negative, magnitude))
}
