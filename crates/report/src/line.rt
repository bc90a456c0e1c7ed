//! A line of numbers, put together from its end.

ghost use Rattle.std.specs.Prelude.{◌≡◌, ◌≤◌, ◌+◌, ◌++◌, take, drop, replicate};
ghost use Rattle.std.specs.Fmt.{decimal};
ghost use Rattle.report.specs.Pieces.{right, cell};

use itoa::write_digits;

/// Capacity for five numbers, each of up to 20 digits and behind a blank.
pub(crate) const CAPACITY: usize = 105;

pub(crate) fn put_right(line: &mut [u8; CAPACITY], end: usize, number: u64, width: usize) -> usize
    requires capacity { 20 ≤ end }
    requires within { end ≤ 105 }
    requires narrow { width ≤ 16 }
    requires blank { take end line.old ≡ replicate end 32 }
    ensures least { end ≤ result + 20 }
    ensures most { result ≤ end }
    ensures written { drop result line.new ≡ right width (decimal number) ++ drop end line.old }
    ensures blank { take result line.new ≡ replicate result 32 }
{
    let start = write_digits(number, line, end);
    start.min(end - width)
}

pub(crate) fn put_cell(line: &mut [u8; CAPACITY], end: usize, number: u64, width: usize) -> usize
    requires capacity { 21 ≤ end }
    requires within { end ≤ 105 }
    requires narrow { width ≤ 16 }
    requires blank { take end line.old ≡ replicate end 32 }
    ensures least { end ≤ result + 21 }
    ensures most { result ≤ end }
    ensures written { drop result line.new ≡ cell width number ++ drop end line.old }
    ensures blank { take result line.new ≡ replicate result 32 }
{
    put_right(line, end, number, width) - 1
}
