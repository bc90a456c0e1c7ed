ghost use Rattle.std.specs.Prelude.{◌≡◌, ◌≤◌, IfSome, nat_abs};
ghost use Rattle.std.specs.List.{list_all};
ghost use Rattle.swf_text.specs.Limits.{whole_limit};
ghost use Rattle.swf_text.specs.Entry.{field, whole_number, is_partial, is_part, values};
ghost use Rattle.swf_text.specs.Number.{greatest, is_below_zero};

use crate::line::Fields;
use crate::value::Value;

pub(crate) fn whole_number(value: &Value) -> Option<u64>
    ensures value { result ≡ whole_number value.now }
    ensures limit { IfSome result (λ n. n ≤ whole_limit) }
{
    let millionths = value.millionths();
    if millionths < 0 {
        return None;
    }
    let millionths = millionths as u64;
    if millionths % 1_000_000 == 0 {
        Some(millionths / 1_000_000)
    } else {
        None
    }
}

pub(crate) fn is_below_zero(value: &Value) -> bool
    ensures value { result ≡ is_below_zero value.now }
    ensures limit { nat_abs value.now ≤ greatest }
{
    value.millionths() < 0
}

pub(crate) fn job_number(fields: &Fields) -> Option<u64>
    ensures value { result ≡ whole_number (field fields.now.0 1) }
    ensures limit { IfSome result (λ n. n ≤ whole_limit) }
{
    whole_number(&fields.0[0])
}

pub(crate) fn is_before_start(fields: &Fields) -> bool
    ensures value { result ≡ is_below_zero (field fields.now.0 2) }
    ensures limit { nat_abs (field fields.now.0 2) ≤ greatest }
{
    is_below_zero(&fields.0[1])
}

pub(crate) fn is_partial_line(fields: &Fields) -> bool
    ensures { result ≡ is_partial (field fields.now.0 11) }
{
    fields.0[10].is_partial()
}

fn is_part(number: u64, part: &Fields) -> bool
    ensures { result ≡ is_part number (values part.now) }
{
    job_number(part) == Some(number) && is_partial_line(part)
}

pub(crate) fn are_parts(number: u64, parts: &[Fields]) -> bool
    ensures { result ≡ list_all (λ part. is_part number (values part)) parts.now }
{
    parts.iter().all(|part| is_part(number, part))
}
