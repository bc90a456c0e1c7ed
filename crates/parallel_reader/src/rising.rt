// Entries are added whose numbers rise from `next` on, and one above the greatest number is returned;
// None where a line is neither blank nor a summary line of such a number without faults, or where a growth
// was refused.
ghost use Rattle.std.specs.Prelude.{◌≡◌, ◌∷◌, ℕ, List, [], length, map, ◌<◌, IfNone, IfSome};
ghost use Rattle.swf_text.specs.Text.{lines};
ghost use Rattle.parallel_reader.specs.Fronts.{AreJobsIn};
ghost use Rattle.parallel_reader.specs.Jobs.{Below, AddsJobs, AddsAll, Extends, IsReadOf, job_of};

use crate::portion::{JobLines, split_portion};
use std::alloc::Allocator;
use swf_text::{ENTRY_LIMIT, Entry, PackedLine};

pub(crate) fn number_behind<A: Allocator + Copy>(entries: &[Entry<A>]) -> u64
    ensures { Below result entries.now }
{
    let mut next = 0u64;
    for entry in entries {
        next = next.max(entry.number() + 1);
    }
    next
}

fn add_job<A: Allocator + Copy>(
    alloc: A,
    entries: &mut Vec<Entry<A>, A>,
    next: u64,
    job: &PackedLine,
) -> Option<u64>
    requires { Below next entries.old.items }
    ensures kept { Extends entries.old.items entries.new.items }
    ensures below { IfSome result (λ later. Below later entries.new.items) }
    ensures added { IfSome result (λ later. AddsJobs entries.old.items (job_of job.now ∷ []) entries.new.items) }
{
    let number = job.job_number()?;
    if job.is_partial() || job.is_before_start() {
        return None;
    }
    if number < next || entries.len() >= ENTRY_LIMIT {
        return None;
    }
    entries.push(Entry::of_packed(alloc, job)).ok()?;
    Some(number + 1)
}

fn add_jobs<A: Allocator + Copy>(
    alloc: A,
    entries: &mut Vec<Entry<A>, A>,
    next: u64,
    jobs: &[PackedLine],
) -> Option<u64>
    requires { Below next entries.old.items }
    ensures kept { Extends entries.old.items entries.new.items }
    ensures below { IfSome result (λ later. Below later entries.new.items) }
    ensures added { IfSome result (λ later. AddsJobs entries.old.items (map job_of jobs.now) entries.new.items) }
{
    let mut next = next;
    for job in jobs {
        next = add_job(alloc, entries, next, job)?;
    }
    Some(next)
}

fn add_portion<A: Allocator + Copy>(
    alloc: A,
    entries: &mut Vec<Entry<A>, A>,
    next: u64,
    jobs: &JobLines,
) -> Option<u64>
    requires { Below next entries.old.items }
    ensures kept { Extends entries.old.items entries.new.items }
    ensures below { IfSome result (λ later. Below later entries.new.items) }
    ensures added { IfSome result (λ later. (ls : List (List ℕ)) → IsReadOf ls jobs.now.jobs jobs.now.count → AddsAll entries.old.items ls entries.new.items) }
{
    let read = jobs.jobs.as_slice();
    match jobs.count {
        Some(counts) => add_jobs(alloc, entries, next, &read[..counts.jobs.min(read.len())]),
        None => None,
    }
}

pub(crate) fn add_portions<A: Allocator + Copy>(
    alloc: A,
    entries: &mut Vec<Entry<A>, A>,
    next: u64,
    jobs: &[JobLines],
) -> Option<u64>
    requires { Below next entries.old.items }
    ensures kept { Extends entries.old.items entries.new.items }
    ensures below { IfSome result (λ later. Below later entries.new.items) }
    ensures added { IfSome result (λ later. (ls : List (List ℕ)) → AreJobsIn ls jobs.now → AddsAll entries.old.items ls entries.new.items) }
{
    let mut next = next;
    for portion in jobs {
        next = add_portion(alloc, entries, next, portion)?;
    }
    Some(next)
}

pub(crate) fn lines_of(jobs: &[JobLines]) -> Option<u64>
    ensures { IfSome result (λ count. (ls : List (List ℕ)) → AreJobsIn ls jobs.now → count ≡ length ls) }
{
    let mut lines = 0u64;
    for portion in jobs {
        let counts = portion.count?;
        lines = lines.checked_add(counts.lines as u64)?;
    }
    Some(lines)
}

pub(crate) fn add_lines<A: Allocator + Copy>(
    alloc: A,
    entries: &mut Vec<Entry<A>, A>,
    next: u64,
    bytes: &[u8],
) -> Option<u64>
    requires { Below next entries.old.items }
    ensures kept { Extends entries.old.items entries.new.items }
    ensures added { IfSome result (λ later. AddsAll entries.old.items (lines bytes.now) entries.new.items) }
    ensures some { IfNone result (0 < length bytes.now) }
{
    let mut jobs = JobLines::new();
    let mut next = next;
    let mut rest = bytes;
    'portions: while !rest.is_empty() {
        let (portion, after) = split_portion(rest);
        jobs.read(portion);
        next = add_portion(alloc, entries, next, &jobs)?;
        rest = after;
    }
    Some(next)
}
