ghost use Rattle.std.specs.Prelude.{◌≡◌, ◌≤◌, ℕ, length, true, IfSome, Some};
ghost use Rattle.std.specs.List.{list_all};
ghost use Rattle.std.specs.Char.{is_ascii_digit};
ghost use Rattle.swf_text.specs.Number.{digits_value};
ghost use Rattle.swf_text.specs.Header.{IsFirstHeader, header_value, colon_then, label_then, to_label, header_of, header_number};

use crate::scan::{blank_count, from_first};
use crate::text::SwfText;
use crate::walk::{digit_count, is_ended};
use std::alloc::Allocator;

/// The most digits of a header number.
const DIGIT_LIMIT: usize = 18;

/// The number that at most eighteen digits spell, 0 of none. Its conditions are that they are
/// digits, and so few. Takes no memory.
pub fn digits_value(digits: &[u8]) -> u64
    requires few { length digits.now ≤ 18 }
    requires all { list_all is_ascii_digit digits.now ≡ true }
    ensures { result ≡ digits_value digits.now }
{
    let mut value = 0u64;
    for byte in digits {
        value = value * 10 + u64::from(byte.saturating_sub(b'0'));
    }
    value
}

fn header_value(bytes: &[u8]) -> Option<u64>
    ensures { result ≡ header_value bytes.now }
{
    let count = digit_count(bytes);
    let (digits, rest) = bytes.split_at(count);
    if count > 0 && count <= DIGIT_LIMIT && is_ended(rest) {
        Some(digits_value(digits))
    } else {
        None
    }
}

fn colon_then(bytes: &[u8]) -> Option<u64>
    ensures { result ≡ colon_then bytes.now }
{
    match bytes {
        [b':', rest @ ..] => header_value(from_first(rest)),
        _ => None,
    }
}

fn label_then(label: &[u8], bytes: &[u8]) -> Option<u64>
    ensures { result ≡ label_then label.now bytes.now }
{
    if bytes.starts_with(label) {
        colon_then(&bytes[label.len()..])
    } else {
        None
    }
}

fn to_label<'a>(label: &[u8], bytes: &'a [u8]) -> &'a [u8]
    ensures { result.now ≡ to_label label.now bytes.now }
{
    &bytes[blank_count(bytes).saturating_sub(blank_count(label))..]
}

fn header_of(label: &[u8], comment: &[u8]) -> Option<u64>
    ensures { result ≡ header_of label.now comment.now }
{
    match comment {
        [b';', rest @ ..] => label_then(label, to_label(label, rest)),
        _ => None,
    }
}

fn first_number<A: Allocator + Copy>(text: &SwfText<A>, label: &[u8]) -> Option<u64>
    ensures { result ≡ header_number label.now text.now.comments }
{
    for comment in text.comments() {
        if let Some(number) = header_of(label, comment) {
            return Some(number);
        }
    }
    None
}

/// The number that the comments of a log give under a label, as `MaxProcs` or `MaxNodes`: that of
/// the first comment of the form `;`, blanks or none, the label byte for byte, `:`, blanks or
/// none, one to eighteen digits, and then the end of the comment or a blank. None where no comment
/// has this form. Takes no memory.
///
/// The labels in use are those of the header comments of the Standard Workload Format, version 2,
/// but any label may be asked for.
pub fn header_number<A: Allocator + Copy>(text: &SwfText<A>, label: &[u8]) -> Option<u64>
    ensures first { IfSome result (λ n. IsFirstHeader label.now text.now.comments n) }
    ensures only { (n : ℕ) → IsFirstHeader label.now text.now.comments n → result ≡ Some n }
    ensures exact { result ≡ header_number label.now text.now.comments }
{
    first_number(text, label)
}
