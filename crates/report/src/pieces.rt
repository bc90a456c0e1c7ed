//! The pieces that lines are made of.

// Of thousandths and percents the whole part has at least the width; a percent comes in 100,000ths.
ghost use Rattle.std.specs.Prelude.{◌≡◌, ◌≤◌, ◌<◌, ◌++◌, OnOk, codes, length, replicate};
ghost use Rattle.report.specs.Pieces.{right, left, three_digits, thousandths, percent, verdict};

use itoa::{Buffer, Integer};
use std::alloc::{AllocError, Allocator};

/// As many blanks as a line ever puts beside a text.
const BLANKS: [u8; 16] = [b' '; 16];

/// A zero for each of three digits.
const ZEROS: [u8; 3] = [b'0'; 3];

fn blanks(count: usize) -> &'static [u8]
    requires { count ≤ 16 }
    ensures { result.now ≡ replicate count 32 }
{
    &BLANKS[..count]
}

fn zeros(count: usize) -> &'static [u8]
    requires { count ≤ 3 }
    ensures { result.now ≡ replicate count 48 }
{
    &ZEROS[..count]
}

fn push_right<A: Allocator + Copy>(
    text: &mut Vec<u8, A>,
    piece: &[u8],
    width: usize,
) -> Result<(), AllocError>
    requires { width ≤ 16 }
    ensures { OnOk result (text.new.items ≡ text.old.items ++ right width piece.now) }
{
    text.extend_from_slice(blanks(width.saturating_sub(piece.len())))?;
    text.extend_from_slice(piece)?;
    Ok(())
}

pub(crate) fn push_left<A: Allocator + Copy>(
    text: &mut Vec<u8, A>,
    name: &[u8],
    width: usize,
) -> Result<(), AllocError>
    requires { width ≤ 16 }
    ensures { OnOk result (text.new.items ≡ text.old.items ++ left width name.now) }
{
    let pad = blanks(width.saturating_sub(name.len()));
    text.extend_from_slice(name)?;
    text.extend_from_slice(pad)?;
    Ok(())
}

pub(crate) fn push_number<N: Integer, A: Allocator + Copy>(
    text: &mut Vec<u8, A>,
    number: N,
) -> Result<(), AllocError>
    ensures { OnOk result (text.new.items ≡ text.old.items ++ N.text number) }
{
    text.extend_from_slice(Buffer::new().format(number).as_bytes())
}

pub(crate) fn push_aligned<N: Integer, A: Allocator + Copy>(
    text: &mut Vec<u8, A>,
    number: N,
    width: usize,
) -> Result<(), AllocError>
    requires { width ≤ 16 }
    ensures { OnOk result (text.new.items ≡ text.old.items ++ right width (N.text number)) }
{
    push_right(text, Buffer::new().format(number).as_bytes(), width)
}

pub(crate) fn push_cell<N: Integer, A: Allocator + Copy>(
    text: &mut Vec<u8, A>,
    number: N,
    width: usize,
) -> Result<(), AllocError>
    requires { width ≤ 16 }
    ensures { OnOk result (text.new.items ≡ text.old.items ++ (codes " " ++ right width (N.text number))) }
{
    text.push(b' ')?;
    push_aligned(text, number, width)
}

fn push_three_digits<A: Allocator + Copy>(
    text: &mut Vec<u8, A>,
    number: u128,
) -> Result<(), AllocError>
    ensures { OnOk result (text.new.items ≡ text.old.items ++ three_digits number) }
{
    let mut buffer = Buffer::new();
    let digits = buffer.format(number).as_bytes();
    text.extend_from_slice(zeros(3usize.saturating_sub(digits.len())))?;
    text.extend_from_slice(digits)?;
    Ok(())
}

pub(crate) fn push_thousandths<A: Allocator + Copy>(
    text: &mut Vec<u8, A>,
    number: u128,
    width: usize,
) -> Result<(), AllocError>
    requires { width ≤ 16 }
    ensures { OnOk result (text.new.items ≡ text.old.items ++ thousandths width number) }
{
    push_aligned(text, number / 1000, width)?;
    text.push(b'.')?;
    push_three_digits(text, number % 1000)
}

pub(crate) fn push_percent<A: Allocator + Copy>(
    text: &mut Vec<u8, A>,
    number: u128,
    width: usize,
) -> Result<(), AllocError>
    requires { width ≤ 16 }
    ensures { OnOk result (text.new.items ≡ text.old.items ++ percent width number) }
{
    push_thousandths(text, number, width)?;
    text.push(b'%')?;
    Ok(())
}

pub(crate) fn verdict(killed: bool) -> &'static [u8]
    ensures text { result.now ≡ verdict killed }
    ensures short { length result.now ≤ 6 }
{
    if killed { b" kill\n" } else { b" ok\n" }
}
