ghost use Rattle.std.specs.Prelude.{◌≡◌, ◌<◌, ◌≤◌, IfSome, length, nat_abs, pos, slice_index_or};
ghost use Rattle.swf_text.specs.Limits.{whole_limit};
ghost use Rattle.swf_text.specs.Entry.{field, is_partial, whole_number};
ghost use Rattle.swf_text.specs.Number.{greatest, is_below_zero, whole_of};
ghost use Rattle.swf_text.specs.Packed.{unpacked, value_of};

use crate::checks::{is_below_zero, whole_number};
use crate::line::Fields;
use crate::value::{Value, signed_value};

/// The code of -1, by which a log says that a value is not known.
pub(crate) const UNKNOWN: u32 = 0;

/// The first code of a number of hundredths; those before it, but for UNKNOWN, are one above a whole
/// number.
pub(crate) const HUNDREDTHS: u64 = 4_000_000_000;

fn code_of_size(millionths: u64) -> Option<u32>
    ensures { IfSome result (λ code. value_of code ≡ pos millionths) }
{
    let whole = millionths / 1_000_000;
    if whole * 1_000_000 == millionths && whole + 1 < HUNDREDTHS {
        return Some((whole + 1) as u32);
    }
    let hundredths = millionths / 10_000;
    if hundredths * 10_000 == millionths && HUNDREDTHS + hundredths <= u64::from(u32::MAX) {
        return Some((HUNDREDTHS + hundredths) as u32);
    }
    None
}

pub(crate) fn code_of(value: &Value) -> Option<u32>
    ensures { IfSome result (λ code. value_of code ≡ value.now) }
{
    let millionths = value.millionths();
    if millionths >= 0 {
        return code_of_size(millionths as u64);
    }
    if millionths == -1_000_000 {
        Some(UNKNOWN)
    } else {
        None
    }
}

fn value_of(code: u32) -> Value
    ensures { result ≡ value_of code }
{
    if code == UNKNOWN {
        return signed_value(true, 1_000_000);
    }
    let code = u64::from(code);
    if code < HUNDREDTHS {
        signed_value(false, 1_000_000 * (code - 1))
    } else {
        signed_value(false, 10_000 * (code - HUNDREDTHS))
    }
}

fn whole_of(code: u32) -> i64
    ensures value { result ≡ whole_of (value_of code) }
    ensures within { nat_abs result ≤ whole_limit }
{
    if code == UNKNOWN {
        -1
    } else if u64::from(code) < HUNDREDTHS {
        i64::from(code - 1)
    } else {
        value_of(code).whole()
    }
}

fn number_of(code: u32) -> Option<u64>
    ensures value { result ≡ whole_number (value_of code) }
    ensures limit { IfSome result (λ n. n ≤ whole_limit) }
{
    if code == UNKNOWN {
        return None;
    }
    if u64::from(code) < HUNDREDTHS {
        return Some(u64::from(code - 1));
    }
    whole_number(&value_of(code))
}

/// The eighteen values of a job line in four bytes each: each is -1, a whole number from 0 to
/// 3,999,999,998, or another number of hundredths from 0 to 2,949,672.95.
#[derive(Clone, Copy)]
pub struct PackedLine(pub(crate) [u32; 18]);

impl PackedLine {
    /// The line of eighteen times -1.
    pub const UNKNOWN: PackedLine = PackedLine([UNKNOWN; 18]);

    pub(crate) fn of(line: &Fields) -> Option<PackedLine>
        ensures { IfSome result (λ packed. unpacked packed ≡ line.now.0) }
    {
        let mut codes = [0; 18];
        for place in 0..18usize {
            let Some(code) = code_of(&line.0[place]) else {
                return None;
            };
            codes[place] = code;
        }
        Some(PackedLine(codes))
    }

    /// The job number: field 1, where it is whole and at least 0.
    pub fn job_number(&self) -> Option<u64>
        ensures number { result ≡ whole_number (field (unpacked self.now) 1) }
        ensures limit { IfSome result (λ n. n ≤ whole_limit) }
        ensures values { length (unpacked self.now) ≡ 18 }
    {
        number_of(self.0[0])
    }

    /// Whether the submit time, field 2, is negative.
    pub fn is_before_start(&self) -> bool
        ensures submit { result ≡ is_below_zero (field (unpacked self.now) 2) }
        ensures limit { nat_abs (field (unpacked self.now) 2) ≤ greatest }
    {
        is_below_zero(&self.value(1))
    }

    /// Whether it is a partial line, by its status, field 11.
    pub fn is_partial(&self) -> bool
        ensures { result ≡ is_partial (field (unpacked self.now) 11) }
    {
        self.value(10).is_partial()
    }

    pub(crate) fn value(&self, index: usize) -> Value
        requires { index < 18 }
        ensures { result ≡ slice_index_or (unpacked self.now) index (pos 0) }
    {
        value_of(self.0[index])
    }

    pub(crate) fn whole(&self, index: usize) -> i64
        requires { index < 18 }
        ensures value { result ≡ whole_of (slice_index_or (unpacked self.now) index (pos 0)) }
        ensures within { nat_abs result ≤ whole_limit }
    {
        whole_of(self.0[index])
    }

    pub(crate) fn fields(&self) -> Fields
        ensures { result.0 ≡ unpacked self.now }
    {
        let mut values = [Value::ZERO; 18];
        for place in 0..18usize {
            values[place] = value_of(self.0[place]);
        }
        Fields(values)
    }
}
