ghost use Rattle.std.specs.Prelude.{◌≡◌, ◌+◌, ◌<◌, ◌≤◌, ◌++◌, length, nat_abs};
ghost use Rattle.swf_text.specs.Number.{greatest, canonical, six_digits, without_zeros};

use crate::value::Value;
use arrayvec::ArrayVec;
use itoa::Buffer;

/// Capacity for a spelling: a sign, the digits of any whole number, a point and six decimals.
pub(crate) const SPELLING_CAPACITY: usize = 28;

fn six_digits(millionths: u64) -> [u8; 6]
    requires { millionths < 1000000 }
    ensures { result ≡ six_digits millionths }
{
    let tens = millionths / 10;
    let hundreds = tens / 10;
    let thousands = hundreds / 10;
    let ten_thousands = thousands / 10;
    let hundred_thousands = ten_thousands / 10;
    [
        b'0' + hundred_thousands as u8,
        b'0' + (ten_thousands % 10) as u8,
        b'0' + (thousands % 10) as u8,
        b'0' + (hundreds % 10) as u8,
        b'0' + (tens % 10) as u8,
        b'0' + (millionths % 10) as u8,
    ]
}

fn without_zeros(digits: &[u8]) -> &[u8]
    ensures value { result.now ≡ without_zeros digits.now }
    ensures within { length result.now ≤ length digits.now }
{
    let mut end = digits.len();
    while end > 0 && digits[end - 1] == b'0' {
        end -= 1;
    }
    &digits[..end]
}

pub(crate) fn push_all<const N: usize>(text: &mut ArrayVec<u8, N>, bytes: &[u8])
    requires { length text.old.items + length bytes.now ≤ N }
    ensures { text.new.items ≡ text.old.items ++ bytes.now }
{
    for byte in bytes {
        text.push(*byte);
    }
}

pub(crate) fn spell(value: &Value) -> ArrayVec<u8, SPELLING_CAPACITY>
    ensures value { result.items ≡ canonical value.now }
    ensures within { nat_abs value.now ≤ greatest }
{
    let mut text = ArrayVec::new();
    let millionths = value.millionths();
    if millionths < 0 {
        text.push(b'-');
    }
    let size = millionths.unsigned_abs();
    let mut buffer = Buffer::new();
    push_all(&mut text, buffer.format(size / 1_000_000).as_bytes());
    let fraction = size % 1_000_000;
    if fraction != 0 {
        text.push(b'.');
        push_all(&mut text, without_zeros(&six_digits(fraction)));
    }
    text
}
