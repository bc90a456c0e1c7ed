//! The first line of a report.

ghost use Rattle.std.specs.Prelude.{◌≡◌, ◌++◌, OnOk};
ghost use Rattle.report.specs.Heading.{title, heading};

use crate::pieces::push_number;
use std::alloc::{AllocError, Allocator};

pub(crate) fn push_title<A: Allocator + Copy>(
    text: &mut Vec<u8, A>,
    kind: &str,
    name: &str,
    version: u64,
) -> Result<(), AllocError>
    ensures { OnOk result (text.new.items ≡ text.old.items ++ title kind.now name.now version) }
{
    text.extend_from_slice(kind.as_bytes())?;
    text.push(b' ')?;
    text.extend_from_slice(name.as_bytes())?;
    text.extend_from_slice(b" version ")?;
    push_number(text, version)
}

pub(crate) fn push_heading<A: Allocator + Copy>(
    text: &mut Vec<u8, A>,
    kind: &str,
    name: &str,
    version: u64,
    counted: &str,
    count: usize,
) -> Result<(), AllocError>
    ensures { OnOk result (text.new.items ≡ text.old.items ++ heading kind.now name.now version counted.now count) }
{
    push_title(text, kind, name, version)?;
    text.push(b' ')?;
    text.extend_from_slice(counted.as_bytes())?;
    text.push(b' ')?;
    push_number(text, count)?;
    text.push(b'\n')?;
    Ok(())
}
