//! The report on all jobs.

ghost use Rattle.std.specs.Prelude.{◌≡◌, ◌++◌, OnOk, IfOk, codes};
ghost use Rattle.report.specs.Table.{jobs_line, skips_line, wait_line, length_line, slowdown_line, busy_line, utilization_line, table_text};

use crate::heading::push_title;
use crate::pieces::{push_number, push_percent, push_thousandths};
use checkpoints::Run;
use itoa::Integer;
use metrics::{Overall, Skips};
use std::alloc::{AllocError, Allocator};
use swf_text::Memory;

fn push_labelled<N: Integer, A: Allocator + Copy>(
    text: &mut Vec<u8, A>,
    word: &str,
    number: N,
) -> Result<(), AllocError>
    ensures { OnOk result (text.new.items ≡ text.old.items ++ (word.now ++ codes " " ++ N.text number)) }
{
    text.extend_from_slice(word.as_bytes())?;
    text.push(b' ')?;
    push_number(text, number)
}

fn push_jobs<A: Allocator + Copy>(text: &mut Vec<u8, A>, all: &Overall) -> Result<(), AllocError>
    ensures { OnOk result (text.new.items ≡ text.old.items ++ jobs_line all.now) }
{
    push_labelled(text, "jobs", all.jobs)?;
    push_labelled(text, " killed", all.killed)?;
    text.push(b'\n')?;
    Ok(())
}

fn push_skips<A: Allocator + Copy>(text: &mut Vec<u8, A>, skips: &Skips) -> Result<(), AllocError>
    ensures { OnOk result (text.new.items ≡ text.old.items ++ skips_line skips.now) }
{
    push_labelled(text, "skipped size", skips.size)?;
    push_labelled(text, " run", skips.run)?;
    push_labelled(text, " large", skips.large)?;
    push_labelled(text, " long", skips.long)?;
    text.push(b'\n')?;
    Ok(())
}

fn push_wait<A: Allocator + Copy>(text: &mut Vec<u8, A>, all: &Overall) -> Result<(), AllocError>
    ensures { OnOk result (text.new.items ≡ text.old.items ++ wait_line all.now) }
{
    push_labelled(text, "wait mean", all.wait)?;
    push_labelled(text, " greatest", all.greatest_wait)?;
    text.push(b'\n')?;
    Ok(())
}

fn push_length<A: Allocator + Copy>(text: &mut Vec<u8, A>, all: &Overall) -> Result<(), AllocError>
    ensures { OnOk result (text.new.items ≡ text.old.items ++ length_line all.now) }
{
    push_labelled(text, "length mean", all.length)?;
    text.push(b'\n')?;
    Ok(())
}

fn push_slowdown<A: Allocator + Copy>(
    text: &mut Vec<u8, A>,
    all: &Overall,
) -> Result<(), AllocError>
    ensures { OnOk result (text.new.items ≡ text.old.items ++ slowdown_line all.now) }
{
    text.extend_from_slice(b"slowdown mean ")?;
    push_thousandths(text, all.slowdown, 0)?;
    text.push(b'\n')?;
    Ok(())
}

fn push_busy<A: Allocator + Copy>(text: &mut Vec<u8, A>, all: &Overall) -> Result<(), AllocError>
    ensures { OnOk result (text.new.items ≡ text.old.items ++ busy_line all.now) }
{
    push_labelled(text, "busy", all.busy)?;
    push_labelled(text, " span", all.span)?;
    text.push(b'\n')?;
    Ok(())
}

fn push_utilization<A: Allocator + Copy>(
    text: &mut Vec<u8, A>,
    all: &Overall,
) -> Result<(), AllocError>
    ensures { OnOk result (text.new.items ≡ text.old.items ++ utilization_line all.now) }
{
    text.extend_from_slice(b"utilization ")?;
    push_percent(text, all.utilization, 0)?;
    text.push(b'\n')?;
    Ok(())
}

/// The numbers of a run over all its jobs: how many there are and were killed, how many entries
/// are skipped, by reason, the mean and greatest wait and the mean length (seconds), the mean
/// slowdown, processor-seconds, the span (seconds), and the utilization. Memory where a growth is
/// refused.
pub fn table_text<A: Allocator + Copy>(
    alloc: A,
    name: &str,
    version: u64,
    run: &Run<A>,
) -> Result<Vec<u8, A>, Memory>
    ensures { IfOk result (λ text. text.items ≡ table_text name.now version run.now.tables.overall) }
{
    let all = run.tables().overall();
    let mut text = Vec::new(alloc);
    push_title(&mut text, "table", name, version)?;
    text.push(b'\n')?;
    push_jobs(&mut text, &all)?;
    push_skips(&mut text, &all.skips)?;
    push_wait(&mut text, &all)?;
    push_length(&mut text, &all)?;
    push_slowdown(&mut text, &all)?;
    push_busy(&mut text, &all)?;
    push_utilization(&mut text, &all)?;
    Ok(text)
}
