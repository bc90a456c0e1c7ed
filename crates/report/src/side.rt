//! The report on scenarios side by side.

ghost use Rattle.std.specs.Prelude.{◌≡◌, ◌++◌, OnOk, IfOk};
ghost use Rattle.report.specs.Pieces.{left};
ghost use Rattle.report.specs.Side.{shown_line, side_line, side_text};

use crate::pieces::{push_cell, push_left, push_number, push_percent, push_thousandths};
use checkpoints::Run;
use metrics::Overall;
use std::alloc::{AllocError, Allocator};
use std::sync::Arc;
use swf_text::Memory;

/// Capacity for the line of a scenario whose numbers fit their columns.
const LINE: usize = 68;

/// The width of a name.
const NAME: usize = 16;

/// What is written of a scenario beside others.
#[derive(Drop)]
pub enum SideLine<'a, A: Allocator + Copy> {
    /// Its run at a version of the log.
    Shown {
        name: &'a str,
        version: u64,
        run: Arc<Run<A>, A>,
    },
    /// It has no run.
    NotYet {
        name: &'a str,
    },
    /// Its run is of an earlier version than was seen.
    Behind {
        name: &'a str,
    },
}

fn push_shown<A: Allocator + Copy>(
    text: &mut Vec<u8, A>,
    name: &str,
    version: u64,
    all: &Overall,
) -> Result<(), AllocError>
    ensures { OnOk result (text.new.items ≡ text.old.items ++ shown_line name.now version all.now) }
{
    push_left(text, name.as_bytes(), NAME)?;
    push_cell(text, version, 8)?;
    push_cell(text, all.jobs, 8)?;
    push_cell(text, all.wait, 10)?;
    text.push(b' ')?;
    push_thousandths(text, all.slowdown, 8)?;
    text.push(b' ')?;
    push_percent(text, all.utilization, 3)?;
    text.push(b'\n')?;
    Ok(())
}

fn push_without<A: Allocator + Copy>(
    text: &mut Vec<u8, A>,
    name: &str,
    why: &str,
) -> Result<(), AllocError>
    ensures { OnOk result (text.new.items ≡ text.old.items ++ (left 16 name.now ++ why.now)) }
{
    push_left(text, name.as_bytes(), NAME)?;
    text.extend_from_slice(why.as_bytes())?;
    Ok(())
}

fn push_side<A: Allocator + Copy>(
    text: &mut Vec<u8, A>,
    line: &SideLine<'_, A>,
) -> Result<(), AllocError>
    ensures { OnOk result (text.new.items ≡ text.old.items ++ side_line line.now) }
{
    match line {
        SideLine::Shown { name, version, run } => {
            push_shown(text, name, *version, &run.tables().overall())
        }
        SideLine::NotYet { name } => push_without(text, name, " not yet\n"),
        SideLine::Behind { name } => push_without(text, name, " behind\n"),
    }
}

/// Scenarios side by side, in this order: of each that is shown its name, the version of the log,
/// how many jobs are simulated, their mean wait (seconds), their mean slowdown, and the
/// utilization; of another that there is no run yet, or that it is behind. Memory where a growth is
/// refused.
pub fn side_text<A: Allocator + Copy>(
    alloc: A,
    lines: &[SideLine<'_, A>],
) -> Result<Vec<u8, A>, Memory>
    ensures { IfOk result (λ text. text.items ≡ side_text lines.now) }
{
    let mut text = Vec::with_capacity(alloc, lines.len().saturating_add(1).saturating_mul(LINE))?;
    text.extend_from_slice(b"side scenarios ")?;
    push_number(&mut text, lines.len())?;
    text.push(b'\n')?;
    'lines: for line in lines {
        push_side(&mut text, line)?;
    }
    Ok(text)
}
