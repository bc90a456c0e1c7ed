//! A job line at the front of bytes, whose end is met by the walk over its values.
// A short number has at most ten digits. None says nothing of the bytes.
ghost use Rattle.std.specs.Prelude.{◌≡◌, ◌≤◌, IfSome, Ok, length};
ghost use Rattle.std.specs.List.{after_first, before_first};
ghost use Rattle.swf_text.specs.Line.{job_of_values, line_of};
ghost use Rattle.swf_text.specs.Packed.{unpacked, value_of};
ghost use Rattle.swf_text.specs.Scan.{EndedWord};
ghost use Rattle.swf_text.specs.Text.{is_feed};

use crate::limits::LINE_LIMIT;
use crate::packed::{HUNDREDTHS, PackedLine, UNKNOWN};

#[inline(always)]
fn short_number(end: u8, bytes: &[u8]) -> Option<(u32, &[u8])>
    requires { 11 ≤ length bytes.now }
    ensures { IfSome result (λ r. EndedWord bytes.now (value_of r.0) end r.1.now) }
{
    let mut value = 0u64;
    for place in 0..11usize {
        let byte = bytes[place];
        if !byte.is_ascii_digit() {
            if place == 0 || byte != end || value + 1 >= HUNDREDTHS {
                return None;
            }
            return Some(((value + 1) as u32, &bytes[place + 1..]));
        }
        value = value * 10 + u64::from(byte.saturating_sub(b'0'));
    }
    None
}

#[inline(always)]
fn after_unknown(end: u8, bytes: &[u8]) -> Option<&[u8]>
    ensures { IfSome result (λ rest. EndedWord bytes.now (value_of 0) end rest.now) }
{
    if bytes.len() < 3 || bytes[0] != b'-' || bytes[1] != b'1' || bytes[2] != end {
        return None;
    }
    Some(&bytes[3..])
}

#[inline(always)]
pub(crate) fn ended_word(end: u8, bytes: &[u8]) -> Option<(u32, &[u8])>
    ensures { IfSome result (λ r. EndedWord bytes.now (value_of r.0) end r.1.now) }
{
    if let Some(rest) = after_unknown(end, bytes) {
        return Some((UNKNOWN, rest));
    }
    if bytes.len() < 11 {
        return None;
    }
    short_number(end, bytes)
}

/// Reads the job line that the bytes begin with into codes, where its words are short and each has one space
/// behind it, but the last the line feed: what follows that. None says nothing, neither of the line nor of the
/// codes. Takes no memory.
///
/// It looks at each byte once, and finds the end of the line by the way.
pub fn packed_front<'a>(job: &mut PackedLine, bytes: &'a [u8]) -> Option<&'a [u8]>
    ensures line { IfSome result (λ rest. line_of (before_first is_feed bytes.now) ≡ job_of_values (Ok (unpacked job.new))) }
    ensures rest { IfSome result (λ rest. rest.now ≡ after_first is_feed bytes.now) }
{
    if bytes.is_empty() || bytes[0] < b'-' || bytes[0] > b'9' {
        return None;
    }
    let mut rest = bytes;
    for place in 0..17usize {
        let Some(word) = ended_word(b' ', rest) else {
            return None;
        };
        job.0[place] = word.0;
        rest = word.1;
    }
    let Some(word) = ended_word(b'\n', rest) else {
        return None;
    };
    job.0[17] = word.0;
    if bytes.len() - word.1.len() > LINE_LIMIT {
        return None;
    }
    Some(word.1)
}
