// A job line without faults is read by one walk: in codes, or as values where not all of them have codes.
// None says nothing of the bytes.
ghost use Rattle.std.specs.Prelude.{◌≡◌, ◌∷◌, ◌+◌, ◌*◌, ◌≤◌, ◌<◌, take, length, IfSome, true};
ghost use Rattle.std.specs.List.{list_all};
ghost use Rattle.std.specs.Char.{is_ascii_digit};
ghost use Rattle.swf_text.specs.Number.{digits_value, signed};
ghost use Rattle.swf_text.specs.Packed.{unpacked, value_of};
ghost use Rattle.swf_text.specs.Scan.{NextWord, Word, ends};
ghost use Rattle.swf_text.specs.Header.{digit_len};
ghost use Rattle.swf_text.specs.Line.{from_first, job_line, job_of_values};
ghost use Rattle.std.specs.Prelude.{Ok};
ghost use Rattle.swf_text.specs.Limits.{whole_limit};

use crate::front::ended_word;
use crate::number::{LIMIT, millionths, split_sign};
use crate::packed::{PackedLine, UNKNOWN, code_of};
use crate::scan::from_first;
use crate::value::{Value, signed_value};

/// The most digits that the walk takes for a whole part.
const DIGITS: usize = 12;

fn leading_digits(bytes: &[u8]) -> (u64, usize)
    ensures within { result.1 ≤ length bytes.now }
    ensures digits { list_all is_ascii_digit (take result.1 bytes.now) ≡ true }
    ensures value { result.0 ≡ digits_value (take result.1 bytes.now) }
    ensures limit { result.0 < whole_limit }
{
    let front = &bytes[..bytes.len().min(DIGITS)];
    let mut value = 0u64;
    for (place, byte) in front.iter().enumerate() {
        if !byte.is_ascii_digit() {
            return (value, place);
        }
        value = value * 10 + u64::from(byte.saturating_sub(b'0'));
    }
    (value, front.len())
}

pub(crate) fn digit_count(bytes: &[u8]) -> usize
    ensures value { result ≡ digit_len bytes.now }
    ensures within { result ≤ length bytes.now }
    ensures digits { list_all is_ascii_digit (take result bytes.now) ≡ true }
{
    for (place, byte) in bytes.iter().enumerate() {
        if !byte.is_ascii_digit() {
            return place;
        }
    }
    bytes.len()
}

pub(crate) fn is_ended(bytes: &[u8]) -> bool
    ensures { result ≡ ends bytes.now }
{
    match bytes {
        [] => true,
        [byte, ..] => *byte == b' ' || *byte == b'\t',
    }
}

fn after_byte(byte: u8, bytes: &[u8]) -> Option<&[u8]>
    ensures { IfSome result (λ rest. bytes.now ≡ byte ∷ rest.now) }
{
    if bytes.is_empty() || bytes[0] != byte {
        return None;
    }
    Some(&bytes[1..])
}

#[tactic(auto, using(crate::proofs::Walks::word_unknown))]
fn after_unknown(bytes: &[u8]) -> Option<&[u8]>
    ensures { IfSome result (λ rest. Word bytes.now (signed true 1000000) rest.now) }
{
    let digits = after_byte(b'-', bytes)?;
    let rest = after_byte(b'1', digits)?;
    if is_ended(rest) { Some(rest) } else { None }
}

fn word_at(bytes: &[u8]) -> Option<(Value, &[u8])>
    ensures { IfSome result (λ r. Word bytes.now r.0 r.1.now) }
{
    if let Some(rest) = after_unknown(bytes) {
        return Some((signed_value(true, 1_000_000), rest));
    }
    let (is_negative, unsigned) = split_sign(bytes);
    let (whole, count) = leading_digits(unsigned);
    if count == 0 {
        return None;
    }
    let rest = &unsigned[count..];
    if is_ended(rest) {
        return Some((signed_value(is_negative, 1_000_000 * whole), rest));
    }
    let Some(rest) = after_byte(b'.', rest) else {
        return None;
    };
    let count = digit_count(rest);
    if count == 0 {
        return None;
    }
    let (digits, rest) = rest.split_at(count);
    let magnitude = 1_000_000 * whole + millionths(digits);
    if magnitude > LIMIT || !is_ended(rest) {
        return None;
    }
    Some((signed_value(is_negative, magnitude), rest))
}

fn long_word(bytes: &[u8]) -> Option<(u32, &[u8])>
    ensures { IfSome result (λ r. NextWord (from_first bytes.now) (value_of r.0) r.1.now) }
{
    let Some((value, rest)) = word_at(from_first(bytes)) else {
        return None;
    };
    match code_of(&value) {
        Some(code) => Some((code, rest)),
        None => None,
    }
}

fn next_code(bytes: &[u8]) -> Option<(u32, &[u8])>
    ensures { IfSome result (λ r. NextWord (from_first bytes.now) (value_of r.0) r.1.now) }
{
    let mut rest = bytes;
    loop {
        if let Some(word) = ended_word(b' ', rest) {
            return Some(word);
        }
        let front = from_first(rest);
        if front.len() == rest.len() {
            return long_word(rest);
        }
        rest = front;
    }
}

pub(crate) fn codes_at(line: &[u8]) -> Option<PackedLine>
    ensures { IfSome result (λ packed. job_line line.now ≡ job_of_values (Ok (unpacked packed))) }
{
    let mut codes = [UNKNOWN; 18];
    let mut rest = line;
    for place in 0..18usize {
        let Some(word) = next_code(rest) else {
            return None;
        };
        codes[place] = word.0;
        rest = word.1;
    }
    if from_first(rest).is_empty() {
        Some(PackedLine(codes))
    } else {
        None
    }
}

pub(crate) fn values_at(line: &[u8]) -> Option<[Value; 18]>
    ensures { IfSome result (λ values. job_line line.now ≡ job_of_values (Ok values)) }
{
    let mut values = [Value::ZERO; 18];
    let mut rest = line;
    for index in 0..18usize {
        let Some(word) = word_at(from_first(rest)) else {
            return None;
        };
        values[index] = word.0;
        rest = word.1;
    }
    if from_first(rest).is_empty() {
        Some(values)
    } else {
        None
    }
}
