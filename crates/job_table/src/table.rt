ghost use Rattle.std.specs.Prelude.{◌≡◌, ◌≤◌, ◌<◌, ◌↔◌, ◌∷◌, length, map, IsTrue, IfOk, IfErr, IfSome, OnOk, OnErr, Some, None, nat_abs, option_copied};
ghost use Rattle.swf_text.specs.Entry.{IsEntry, number_of_entry};
ghost use Rattle.swf_text.specs.Limits.{entry_limit};
ghost use Rattle.swf_text.specs.Log.{IsLog, log_of};
ghost use Rattle.swf_text.specs.Number.{greatest};
ghost use Rattle.job_table.specs.Accepted.{IsEdit};
ghost use Rattle.job_table.specs.Counted.{fewest, most};
ghost use Rattle.job_table.specs.Edit.{Change, Insert, Remove, edit_of, entry_of, holds, without, changed, applied, change_fault, fault_of, IsRefusal};
ghost use Rattle.job_table.specs.Table.{IsTable, entries_from};

use crate::arranging::arrange;
use crate::cursor::Cursor;
use crate::edit::Edit;
use crate::fault::EditFault;
use crate::index::{
    Index, has_number, index_of, pairs_of, second, set_second, with_number, without_number,
};
use crate::rows::{
    Rows, are_same, changed_entry, copy_of, copy_rest, entry_at, exchange, rest_from, with_moved,
    with_one, without_one,
};
use chunks::Chunks;
use std::alloc::Allocator;
use std::marker::Model;
use swf_text::{ENTRY_LIMIT, Entry, EntryLines, Memory, SwfText, Value};

/// The entries of a log, by submit second, and of one second by job number. Job numbers are
/// distinct, and there are at most 4,194,304 entries.
#[derive(Drop)]
pub struct JobTable<A: Allocator + Copy> {
    rows: Rows<A>,
    index: Index<A>,
    len: usize,
}

impl<A: Allocator + Copy> Model for JobTable<A> {
    ghost use Rattle.std.specs.Prelude.{List};
    ghost use Rattle.chunks.specs.Chunks.{flat};
    ghost use Rattle.swf_text.specs.Entry.{LogEntry};
    ghost use Rattle.job_table.specs.Table.{IsStored};

    ghost Value = { List LogEntry };

    ghost view = { λ t. flat t.rows };

    ghost invariant = { λ t. IsStored (flat t.rows) (flat t.index) t.len };
}

fn check_field(field: u8, value: &Value) -> Result<(), EditFault>
    ensures ok { OnOk result (change_fault field value.now ≡ None) }
    ensures fault { IfErr result (λ fault. change_fault field value.now ≡ Some fault) }
    ensures within { nat_abs value.now ≤ greatest }
{
    let millionths = value.millionths();
    if field < 2 || field > 18 {
        return Err(EditFault::BadField);
    }
    if field == 2 && millionths < 0 {
        return Err(EditFault::BadValue);
    }
    if field == 11 && value.is_partial() {
        return Err(EditFault::BadValue);
    }
    Ok(())
}

impl<A: Allocator + Copy> JobTable<A> {
    /// The table of a log's entries. Memory where a growth was refused.
    pub fn from_text(alloc: A, text: &SwfText<A>) -> Result<JobTable<A>, Memory>
        ensures { IfOk result (λ table. table ≡ log_of text.now.entries) }
    {
        let entries = copy_of(alloc, text.entries())?;
        Ok(JobTable::of_entries(alloc, entries)?)
    }

    /// The table of these entries, which it takes over where they stand: none moves, and each is
    /// looked at once. Those out of order are sorted first. Its condition is what holds of every log:
    /// job numbers are distinct, and there are at most 4,194,304 entries. Memory where a growth was
    /// refused.
    pub fn of_entries(alloc: A, mut entries: Vec<Entry<A>, A>) -> Result<JobTable<A>, Memory>
        requires { IsLog entries.items }
        ensures { IfOk result (λ table. table ≡ log_of entries.items) }
    {
        let pairs = pairs_of(alloc, entries.as_slice())?;
        arrange(&mut entries, pairs.as_slice())?;
        let index = index_of(alloc, pairs)?;
        let len = entries.len();
        let rows = Chunks::of(alloc, entries)?;
        Ok(JobTable { rows, index, len })
    }

    /// A log of these comments, and of the entries in the table's order. Memory where a growth was
    /// refused.
    pub fn to_text(&self, comments: &[Vec<u8, A>]) -> Result<SwfText<A>, Memory>
        ensures comments { IfOk result (λ text. text.comments ≡ map (λ c. c.items) comments.now) }
        ensures entries { IfOk result (λ text. text.entries ≡ self.now) }
    {
        let alloc = self.rows.allocator();
        let mut lines = Vec::with_capacity(alloc, comments.len())?;
        for comment in comments {
            lines.push(Vec::from_slice(alloc, comment.as_slice())?)?;
        }
        let entries = copy_rest(alloc, self.rows.iter(), self.len)?;
        Ok(SwfText::of_parts(lines, entries))
    }

    /// The same table once more, on the allocator that this one keeps. It shares all groups of chunks, of
    /// entries and of the index, and costs a pointer for each group. Memory where a growth was refused.
    pub fn copy(&self) -> Result<JobTable<A>, Memory>
        ensures { IfOk result (λ table. table ≡ self.now) }
    {
        let rows = self.rows.copy()?;
        let index = self.index.copy()?;
        let len = self.len;
        Ok(JobTable { rows, index, len })
    }

    /// How many entries there are, at most 4,194,304.
    pub fn len(&self) -> usize
        ensures count { result ≡ length self.now }
        ensures limit { result ≤ entry_limit }
        ensures sound { IsTable self.now }
    {
        self.len
    }

    /// The entry with this job number.
    pub fn get(&self, number: u64) -> Option<&Entry<A>>
        ensures entry { option_copied result ≡ entry_of number self.now }
        ensures numbered { IfSome result (λ entry. number_of_entry entry.now ≡ number) }
        ensures sound { IfSome result (λ entry. IsEntry entry.now) }
    {
        let submit = second(&self.index, number)?;
        entry_at(&self.rows, submit, number)
    }

    /// The entries with this submit second or a later one, in order.
    pub fn from_second(&self, second: u64) -> Cursor<'_, A>
        ensures entries { result ≡ entries_from second self.now }
        ensures sound { IsTable self.now }
    {
        Cursor::new(rest_from(&self.rows, second))
    }

    /// Whether both have the same entries, with all fields and partial lines.
    pub fn same(&self, other: &JobTable<A>) -> bool
        ensures { IsTrue result ↔ (self.now ≡ other.now) }
    {
        are_same(self.rows.iter(), other.rows.iter())
    }

    fn knows(&self, number: u64) -> bool
        ensures { result ≡ holds number self.now }
    {
        has_number(&self.index, number)
    }

    /// Whether an edit would be accepted, or else its first fault in the order of `EditFault`.
    /// Takes no memory and changes nothing, and so is never Memory.
    pub fn check(&self, edit: &Edit<A>) -> Result<(), EditFault>
        ensures ok { OnOk result (fault_of (edit_of edit.now) self.now ≡ None) }
        ensures fault { IfErr result (λ fault. fault_of (edit_of edit.now) self.now ≡ Some fault) }
        ensures sound { OnOk result (IsEdit (edit_of edit.now)) }
    {
        match edit {
            Edit::Insert(entry) => {
                if self.knows(entry.number()) {
                    return Err(EditFault::DuplicateJob);
                }
                if self.len() >= ENTRY_LIMIT {
                    return Err(EditFault::TableFull);
                }
                Ok(())
            }
            Edit::Remove(number) => {
                if !self.knows(*number) {
                    return Err(EditFault::NoSuchJob);
                }
                Ok(())
            }
            Edit::Change {
                number,
                field,
                value,
            } => {
                if !self.knows(*number) {
                    return Err(EditFault::NoSuchJob);
                }
                check_field(*field, value)
            }
        }
    }

    fn insert(&mut self, entry: &EntryLines<A>) -> Result<u32, Memory>
        requires new { entry_of (number_of_entry entry.now) self.old ≡ None }
        requires capacity { length self.old < entry_limit }
        ensures ok { OnOk result (self.new ≡ log_of (entry.now ∷ self.old)) }
        ensures err { OnErr result (self.new ≡ self.old) }
        ensures least { IfOk result (λ count. fewest (Insert entry.now) self.old ≤ count) }
        ensures most { IfOk result (λ count. count ≤ most (Insert entry.now) self.old) }
    {
        let mut count = 1;
        let copy = Entry::of_lines(entry)?;
        let index = with_number(&self.index, copy.number(), copy.submit(), &mut count)?;
        let rows = with_one(&self.rows, copy, &mut count)?;
        self.index = index;
        self.rows = rows;
        self.len += 1;
        Ok(count)
    }

    fn remove(&mut self, number: u64) -> Result<u32, Memory>
        requires { IsTrue (holds number self.old) }
        ensures ok { OnOk result (self.new ≡ log_of (without number self.old)) }
        ensures err { OnErr result (self.new ≡ self.old) }
        ensures least { IfOk result (λ count. fewest (Remove number) self.old ≤ count) }
        ensures most { IfOk result (λ count. count ≤ most (Remove number) self.old) }
    {
        let submit = second(&self.index, number).unwrap();
        let mut count = 0;
        let index = without_number(&self.index, number, &mut count)?;
        let rows = without_one(&self.rows, submit, number, &mut count)?;
        self.index = index;
        self.rows = rows;
        self.len -= 1;
        Ok(count)
    }

    fn change(&mut self, number: u64, field: u8, value: Value) -> Result<u32, Memory>
        requires there { IsTrue (holds number self.old) }
        requires taken { change_fault field value ≡ None }
        ensures ok { OnOk result (self.new ≡ log_of (changed number field value self.old)) }
        ensures err { OnErr result (self.new ≡ self.old) }
        ensures least { IfOk result (λ count. fewest (Change number field value) self.old ≤ count) }
        ensures most { IfOk result (λ count. count ≤ most (Change number field value) self.old) }
    {
        let submit = second(&self.index, number).unwrap();
        let was = entry_at(&self.rows, submit, number).unwrap();
        let mut count = 1;
        let entry = changed_entry(was, field, value)?;
        let at = entry.submit();
        if at == submit {
            exchange(&mut self.rows, entry, &mut count)?;
            return Ok(count);
        }
        let rows = with_moved(&self.rows, submit, entry, &mut count)?;
        set_second(&mut self.index, number, at, &mut count)?;
        self.rows = rows;
        Ok(count)
    }

    /// Applies an edit, or refuses it with its first fault in the order of `EditFault`; then, with
    /// Memory among the faults, the table is as it was. A change to the value that is there is
    /// accepted. A change of field 2 moves the entry to its place.
    pub fn apply(&mut self, edit: &Edit<A>) -> Result<(), EditFault>
        ensures accepted { OnOk result (fault_of (edit_of edit.now) self.old ≡ None) }
        ensures sound { OnOk result (IsEdit (edit_of edit.now)) }
        ensures applied { OnOk result (self.new ≡ applied (edit_of edit.now) self.old) }
        ensures fault { IfErr result (λ fault. IsRefusal fault (edit_of edit.now) self.old) }
        ensures kept { OnErr result (self.new ≡ self.old) }
    {
        let _count = self.apply_counted(edit)?;
        Ok(())
    }

    /// As `apply`, and returns how many entries and pairs of the index it copies or moves to another
    /// chunk: those of each chunk that it makes anew, and the entry that is new or changed. What is
    /// exchanged in its place is not counted. An edit counts from `fewest` to `most`, which is at
    /// most 898.
    pub fn apply_counted(&mut self, edit: &Edit<A>) -> Result<u32, EditFault>
        ensures accepted { OnOk result (fault_of (edit_of edit.now) self.old ≡ None) }
        ensures sound { OnOk result (IsEdit (edit_of edit.now)) }
        ensures applied { OnOk result (self.new ≡ applied (edit_of edit.now) self.old) }
        ensures fault { IfErr result (λ fault. IsRefusal fault (edit_of edit.now) self.old) }
        ensures kept { OnErr result (self.new ≡ self.old) }
        ensures least { IfOk result (λ count. fewest (edit_of edit.now) self.old ≤ count) }
        ensures most { IfOk result (λ count. count ≤ most (edit_of edit.now) self.old) }
        ensures limit { IfOk result (λ count. count ≤ 898) }
    {
        self.check(edit)?;
        match edit {
            Edit::Insert(entry) => Ok(self.insert(entry)?),
            Edit::Remove(number) => Ok(self.remove(*number)?),
            Edit::Change {
                number,
                field,
                value,
            } => Ok(self.change(*number, *field, *value)?),
        }
    }
}
