//! The report on users.

ghost use Rattle.std.specs.Prelude.{◌≡◌, ◌++◌, OnOk, IfOk};
ghost use Rattle.report.specs.Users.{user_line, users_text};

use crate::heading::push_heading;
use crate::pieces::{push_aligned, push_cell, push_thousandths};
use checkpoints::Run;
use metrics::UserRow;
use std::alloc::{AllocError, Allocator};
use swf_text::Memory;

/// Capacity for the line of a user whose numbers fit their columns.
const LINE: usize = 59;

fn push_user<A: Allocator + Copy>(text: &mut Vec<u8, A>, row: &UserRow) -> Result<(), AllocError>
    ensures { OnOk result (text.new.items ≡ text.old.items ++ user_line row.now) }
{
    push_aligned(text, row.user, 8)?;
    push_cell(text, row.jobs, 8)?;
    push_cell(text, row.wait, 10)?;
    text.push(b' ')?;
    push_thousandths(text, row.slowdown, 8)?;
    push_cell(text, row.busy, 16)?;
    text.push(b'\n')?;
    Ok(())
}

/// The numbers of a run for each user, by rising user: how many jobs, their mean wait (seconds),
/// their mean slowdown, and processor-seconds. Memory where a growth is refused.
pub fn users_text<A: Allocator + Copy>(
    alloc: A,
    name: &str,
    version: u64,
    run: &Run<A>,
) -> Result<Vec<u8, A>, Memory>
    ensures { IfOk result (λ text. text.items ≡ users_text name.now version run.now.tables.users) }
{
    let rows = run.tables().users();
    let mut text = Vec::with_capacity(alloc, rows.len().saturating_add(2).saturating_mul(LINE))?;
    push_heading(&mut text, "users", name, version, "count", rows.len())?;
    'lines: for row in rows {
        push_user(&mut text, row)?;
    }
    Ok(text)
}
