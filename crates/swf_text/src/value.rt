ghost use Rattle.std.specs.Prelude.{◌≡◌, ◌≤◌, ℤ, IfSome, Some, nat_abs, pos};
ghost use Rattle.std.specs.Coded.{coded_ℤ};
ghost use Rattle.swf_text.specs.Limits.{whole_limit};
ghost use Rattle.swf_text.specs.Entry.{is_partial};
ghost use Rattle.swf_text.specs.Number.{Spells, whole_of, signed, greatest};

use crate::number::number;
use std::marker::Model;

/// A number of a log: a decimal of at most a trillion on either side, kept to the millionth.
#[derive(Clone, Copy, Debug, PartialEq, Eq)]
pub struct Value {
    millionths: i64,
}

impl Model for Value {
    ghost use Rattle.std.specs.Prelude.{◌≤◌, ℤ, nat_abs};
    ghost use Rattle.std.specs.Coded.{coded_ℤ};
    ghost use Rattle.swf_text.specs.Number.{greatest};

    ghost Value = { ℤ };

    ghost coded = { coded_ℤ };

    ghost view = { λ v. v.millionths };

    ghost invariant = { λ v. nat_abs v.millionths ≤ greatest };

    ghost inverse = { λ z. record { millionths = z } };
}

impl Value {
    /// The value 0.
    pub const ZERO: Value = Value { millionths: 0 };

    /// The value 0, which is that of the constant.
    pub fn zero() -> Value
        ensures { result ≡ pos 0 }
    {
        Value::ZERO
    }

    /// The value that the bytes spell: an optional `-`, digits, and optionally a point with digits
    /// behind it. Digits after the sixth decimal are cut, towards zero. None where the bytes are
    /// no such text, or the value is beyond a trillion on either side. Takes no memory.
    pub fn from_bytes(bytes: &[u8]) -> Option<Value>
        ensures spells { IfSome result (λ v. Spells bytes.now v) }
        ensures only { (v : ℤ) → Spells bytes.now v → result ≡ Some v }
    {
        number(bytes)
    }

    /// The value in millionths, at most 10^18 on either side.
    pub fn millionths(&self) -> i64
        ensures value { result ≡ self.now }
        ensures within { nat_abs result ≤ greatest }
    {
        self.millionths
    }

    /// The nearest whole number, halves up, as seconds are taken from a log.
    pub fn whole(&self) -> i64
        ensures value { result ≡ whole_of self.now }
        ensures within { nat_abs result ≤ whole_limit }
    {
        (self.millionths + 500_000).div_euclid(1_000_000)
    }

    /// Whether it is the status of a partial line, which tells of one execution of a job that ran in
    /// several: exactly 2, 3 or 4. Takes no memory.
    pub fn is_partial(&self) -> bool
        ensures { result ≡ is_partial self.now }
    {
        matches!(self.millionths, 2_000_000 | 3_000_000 | 4_000_000)
    }
}

pub(crate) fn signed_value(is_negative: bool, magnitude: u64) -> Value
    requires { magnitude ≤ greatest }
    ensures { result ≡ signed is_negative magnitude }
{
    let millionths = magnitude as i64;
    Value {
        millionths: if is_negative { -millionths } else { millionths },
    }
}
