ghost use Rattle.std.specs.Prelude.{◌≡◌, ◌<◌, ◌+◌, ◌++◌, ◌∷◌, ◌-◌, [], ℕ, List, length, nat_le, slice_get, if◌then◌else◌, OnErr, OnOk, Ok, Err, Some, true, false};
ghost use Rattle.std.specs.List.{AllByRecursion, count_by, list_any};
ghost use Rattle.swf_text.specs.declared.fault.FaultKind.TheVariants.{DuplicateJob, TooManyJobs};
ghost use Rattle.swf_text.specs.Entry.{IsEntry, field, whole_number, is_partial, has_number};
ghost use Rattle.swf_text.specs.Limits.{entry_limit};
ghost use Rattle.swf_text.specs.Packed.{unpacked};
ghost use Rattle.swf_text.specs.Text.{empty};
ghost use Rattle.swf_text.specs.Reading.{with_part, with_job, with_read, with_line, Adds};

use crate::checks::{is_before_start, is_partial_line, job_number};
use crate::entry::Entry;
use crate::fault::FaultKind;
use crate::limits::ENTRY_LIMIT;
use crate::line::{Fields, LineRead};
use crate::memory::Memory;
use crate::packed::PackedLine;
use crate::scan::{from_first, packed_line, read_line, without_returns};
use crate::seen::SeenNumbers;
use crate::text::SwfText;
use crate::value::Value;
use std::alloc::Allocator;
use std::marker::Model;

/// The part of a log that was read, line after line from the first one on, and the numbers of its
/// jobs. Contracts see it as the comments and entries that it has.
#[derive(Drop)]
pub struct Builder<A: Allocator + Copy> {
    comments: Vec<Vec<u8, A>, A>,
    entries: Vec<Entry<A>, A>,
    numbers: SeenNumbers<A>,
}

impl<A: Allocator + Copy> Model for Builder<A> {
    ghost use Rattle.std.specs.Prelude.{map};
    ghost use Rattle.swf_text.specs.Log.{IsLog};
    ghost use Rattle.swf_text.specs.Text.{LogText};
    ghost use Rattle.swf_text.specs.Seen.{IsIndex};

    ghost Value = { LogText };

    ghost view = { λ b. record { comments = map (λ c. c.items) b.comments.items; entries = b.entries.items } };

    ghost invariant = { λ b. record { log : IsLog b.entries.items; index : IsIndex b.numbers.rising.items b.numbers.others b.entries.items } };
}

#[tactic(auto, using(crate::proofs::Entries::all_set))]
fn add_part<A: Allocator + Copy>(
    entries: &mut Vec<Entry<A>, A>,
    number: u64,
    part: Fields,
) -> Result<(), FaultKind>
    requires numbered { whole_number (field part.0 1) ≡ Some number }
    requires partial { is_partial (field part.0 11) ≡ true }
    ensures adds { (comments : List (List ℕ)) → Adds (record { comments = comments; entries = entries.new.items }) result (with_part (record { comments = comments; entries = entries.old.items }) part.0 number (slice_get entries.old.items (length entries.old.items - 1))) }
    ensures sound { AllByRecursion IsEntry entries.old.items → AllByRecursion IsEntry entries.new.items }
    ensures count { length entries.new.items ≡ length entries.old.items }
    ensures numbers { (n : ℕ) → count_by (has_number n) entries.new.items ≡ count_by (has_number n) entries.old.items }
    ensures kept { OnErr result (entries.new.items ≡ entries.old.items) }
{
    // Named here since the check has to know the type.
    let _number: &Value = &part.0[0];
    let count = entries.len();
    if count == 0 {
        return Err(FaultKind::OrphanPartial);
    }
    let last = &mut entries[count - 1];
    if last.number() != number {
        return Err(FaultKind::OrphanPartial);
    }
    last.add_part(part)?;
    Ok(())
}

impl<A: Allocator + Copy> Builder<A> {
    /// Nothing read yet. Takes no memory.
    pub fn new(alloc: A) -> Builder<A>
        ensures { result ≡ empty }
    {
        Builder {
            comments: Vec::new(alloc),
            entries: Vec::new(alloc),
            numbers: SeenNumbers::new(alloc),
        }
    }

    /// Reserves capacity for this many more entries, or for as many as a log may have, so that those that
    /// are there are not moved when others come. Memory where the growth was refused; the capacity and
    /// what was read are then as they were.
    pub fn reserve(&mut self, entries: usize) -> Result<(), Memory>
        ensures { self.new ≡ self.old }
    {
        self.entries.reserve(entries.min(ENTRY_LIMIT))?;
        Ok(())
    }

    fn check_new(&self, number: u64) -> Result<(), FaultKind>
        ensures { result ≡ (if list_any (has_number number) self.now.entries then Err DuplicateJob else (if nat_le entry_limit (length self.now.entries) then Err TooManyJobs else Ok tt)) }
    {
        if self.numbers.contains(number) {
            return Err(FaultKind::DuplicateJob);
        }
        if self.entries.len() >= ENTRY_LIMIT {
            return Err(FaultKind::TooManyJobs);
        }
        Ok(())
    }

    fn push_entry(&mut self, number: u64, entry: Entry<A>) -> Result<(), Memory>
        requires sound { IsEntry entry }
        requires number { whole_number (field entry.main 1) ≡ Some number }
        requires new { list_any (has_number number) self.old.entries ≡ false }
        requires capacity { length self.old.entries < 4194304 }
        ensures added { OnOk result (self.new ≡ record self.old { entries = self.old.entries ++ entry ∷ [] }) }
        ensures kept { OnErr result (self.new ≡ self.old) }
    {
        self.entries.reserve(1)?;
        self.numbers.insert(number)?;
        self.entries.push(entry).unwrap();
        Ok(())
    }

    fn add_job(&mut self, alloc: A, job: Fields) -> Result<(), FaultKind>
        ensures adds { Adds self.new result (with_job self.old job.0) }
        ensures kept { OnErr result (self.new ≡ self.old) }
    {
        let Some(number) = job_number(&job) else {
            return Err(FaultKind::BadJobNumber);
        };
        if is_partial_line(&job) {
            return add_part(&mut self.entries, number, job);
        }
        if is_before_start(&job) {
            return Err(FaultKind::BadSubmit);
        }
        self.check_new(number)?;
        let entry = Entry::of_main(alloc, &job)?;
        self.push_entry(number, entry)?;
        Ok(())
    }

    pub(crate) fn add_packed(&mut self, alloc: A, job: &PackedLine) -> Result<(), FaultKind>
        ensures { Adds self.new result (with_job self.old (unpacked job.now)) }
    {
        if job.is_partial() {
            return self.add_job(alloc, job.fields());
        }
        let Some(number) = job.job_number() else {
            return Err(FaultKind::BadJobNumber);
        };
        if job.is_before_start() {
            return Err(FaultKind::BadSubmit);
        }
        self.check_new(number)?;
        self.push_entry(number, Entry::of_packed(alloc, job))?;
        Ok(())
    }

    /// Adds what the next line holds, given as it stands, without its line feed, and as `read_line`
    /// reads it: nothing for blanks, a comment, an entry, or a part of the last entry.
    ///
    /// Its fault is that of the line by itself; then, of a job line, the first among the lines
    /// before it, in the order of `FaultKind`; or `Memory` where a growth was refused. With a fault
    /// nothing is added.
    pub fn add_read(&mut self, alloc: A, line: &[u8], read: LineRead) -> Result<(), FaultKind>
        ensures adds { Adds self.new result (with_read self.old line.now read) }
        ensures kept { OnErr result (self.new ≡ self.old) }
    {
        match read {
            LineRead::Blank => Ok(()),
            LineRead::Comment => {
                let comment = Vec::from_slice(alloc, from_first(without_returns(line)))?;
                self.comments.push(comment)?;
                Ok(())
            }
            LineRead::Job(job) => self.add_job(alloc, job),
            LineRead::Fault(fault) => Err(fault.into()),
        }
    }

    #[tactic(auto, unfolding(crate::specs::Reading::with_line))]
    pub(crate) fn add_line(&mut self, alloc: A, line: &[u8]) -> Result<(), FaultKind>
        ensures { Adds self.new result (with_line self.old line.now) }
    {
        match packed_line(line) {
            Some(job) => self.add_packed(alloc, &job),
            None => self.add_read(alloc, line, read_line(line)),
        }
    }

    /// The log that was read. Takes no memory.
    pub fn finish(self) -> SwfText<A>
        ensures { result ≡ self }
    {
        let Builder {
            comments,
            entries,
            numbers: _numbers,
        } = self;
        SwfText::of_parts(comments, entries)
    }
}
