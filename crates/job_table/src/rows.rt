// `are_equal` looks at all values: without an end at the first that differs, several can be compared at once.
ghost use Rattle.std.specs.Prelude.{◌≡◌, ◌≤◌, ◌<◌, ◌+◌, ◌↔◌, length, IfOk, OnErr, OnOk, IsTrue, Some, None, option_copied, option_map};
ghost use Rattle.chunks.specs.Chunks.{CountsNoneOr, flat, joining, place_in, touched};
ghost use Rattle.swf_text.specs.Entry.{number_of_entry, submit_of};
ghost use Rattle.swf_text.specs.Log.{with_entry};
ghost use Rattle.job_table.specs.Edit.{change_fault, entry_of, with_field, without};
ghost use Rattle.job_table.specs.Table.{IsTable, entries_from};

use chunks::{Chunks, Rest};
use std::alloc::Allocator;
use swf_text::{Entry, Memory, Value};

/// The entries of a table, in their order.
pub(crate) type Rows<A> = Chunks<Entry<A>, A>;

pub(crate) fn copy_of<A: Allocator + Copy>(
    alloc: A,
    rows: &[Entry<A>],
) -> Result<Vec<Entry<A>, A>, Memory>
    ensures { IfOk result (λ copy. copy.items ≡ rows.now) }
{
    let mut copy = Vec::with_capacity(alloc, rows.len())?;
    for entry in rows {
        copy.push(entry.copy()?)?;
    }
    Ok(copy)
}

pub(crate) fn copy_rest<A: Allocator + Copy>(
    alloc: A,
    mut rest: Rest<'_, Entry<A>, A>,
    len: usize,
) -> Result<Vec<Entry<A>, A>, Memory>
    ensures { IfOk result (λ copy. copy.items ≡ rest.entry) }
{
    let mut copy = Vec::with_capacity(alloc, len)?;
    'entries: while let Some(entry) = rest.next() {
        copy.push(entry.copy()?)?;
    }
    Ok(copy)
}

pub(crate) fn entry_at<A: Allocator + Copy>(
    rows: &Rows<A>,
    submit: u64,
    number: u64,
) -> Option<&Entry<A>>
    requires table { IsTable (flat rows.now) }
    requires known { Some submit ≡ option_map submit_of (entry_of number (flat rows.now)) }
    ensures { option_copied result ≡ entry_of number (flat rows.now) }
{
    rows.find(submit, number)
}

pub(crate) fn rest_from<A: Allocator + Copy>(rows: &Rows<A>, second: u64) -> Rest<'_, Entry<A>, A>
    requires { IsTable (flat rows.now) }
    ensures { result ≡ entries_from second (flat rows.now) }
{
    rows.rest(second, 0)
}

pub(crate) fn with_one<A: Allocator + Copy>(
    rows: &Rows<A>,
    entry: Entry<A>,
    count: &mut u32,
) -> Result<Rows<A>, Memory>
    requires table { IsTable (flat rows.now) }
    requires capacity { count.old ≤ 768 }
    ensures rows { IfOk result (λ new. flat new ≡ with_entry entry (flat rows.now)) }
    ensures count { OnOk result (count.new ≡ count.old + joining (place_in submit_of number_of_entry (submit_of entry) (number_of_entry entry) (flat rows.now)) rows.now) }
    ensures least { 1 ≤ length (flat rows.now) → OnOk result (count.old < count.new) }
    ensures most { OnOk result (count.new ≤ count.old + 385) }
{
    Ok(rows.with(entry, count)?)
}

pub(crate) fn without_one<A: Allocator + Copy>(
    rows: &Rows<A>,
    submit: u64,
    number: u64,
    count: &mut u32,
) -> Result<Rows<A>, Memory>
    requires table { IsTable (flat rows.now) }
    requires known { Some submit ≡ option_map submit_of (entry_of number (flat rows.now)) }
    requires capacity { count.old ≤ 768 }
    ensures rows { IfOk result (λ new. flat new ≡ without number (flat rows.now)) }
    ensures count { OnOk result (count.new ≡ count.old + touched (place_in submit_of number_of_entry submit number (flat rows.now)) rows.now) }
    ensures least { OnOk result (count.old < count.new) }
    ensures most { OnOk result (count.new ≤ count.old + 256) }
{
    Ok(rows.without(submit, number, count)?)
}

pub(crate) fn with_moved<A: Allocator + Copy>(
    rows: &Rows<A>,
    submit: u64,
    entry: Entry<A>,
    count: &mut u32,
) -> Result<Rows<A>, Memory>
    requires table { IsTable (flat rows.now) }
    requires known { Some submit ≡ option_map submit_of (entry_of (number_of_entry entry) (flat rows.now)) }
    requires capacity { count.old ≤ 512 }
    ensures rows { IfOk result (λ new. flat new ≡ with_entry entry (without (number_of_entry entry) (flat rows.now))) }
    ensures least { OnOk result (count.old < count.new) }
    ensures both { 2 ≤ length (flat rows.now) → OnOk result (count.old + 1 < count.new) }
    ensures most { OnOk result (count.new ≤ count.old + 641) }
{
    let left = without_one(rows, submit, entry.number(), count)?;
    Ok(with_one(&left, entry, count)?)
}

pub(crate) fn exchange<A: Allocator + Copy>(
    rows: &mut Rows<A>,
    entry: Entry<A>,
    count: &mut u32,
) -> Result<(), Memory>
    requires table { IsTable (flat rows.old) }
    requires known { Some (submit_of entry) ≡ option_map submit_of (entry_of (number_of_entry entry) (flat rows.old)) }
    requires capacity { count.old ≤ 768 }
    ensures rows { OnOk result (flat rows.new ≡ with_entry entry (without (number_of_entry entry) (flat rows.old))) }
    ensures kept { OnErr result (rows.new ≡ rows.old) }
    ensures count { OnOk result (CountsNoneOr (touched (place_in submit_of number_of_entry (submit_of entry) (number_of_entry entry) (flat rows.old)) rows.old) count.old count.new) }
    ensures least { OnOk result (count.old ≤ count.new) }
    ensures most { OnOk result (count.new ≤ count.old + 256) }
{
    rows.exchange(entry, count)
}

pub(crate) fn changed_entry<A: Allocator + Copy>(
    was: &Entry<A>,
    field: u8,
    value: Value,
) -> Result<Entry<A>, Memory>
    requires { change_fault field value ≡ None }
    ensures { IfOk result (λ entry. entry ≡ with_field field value was.now) }
{
    let mut lines = was.lines()?;
    lines.set_field(usize::from(field), value).unwrap();
    Entry::of_lines(&lines)
}

fn are_equal(one: &[Value], other: &[Value]) -> bool
    ensures { IsTrue result ↔ (one.now ≡ other.now) }
{
    if one.len() != other.len() {
        return false;
    }
    let mut same = true;
    for place in 0..one.len() {
        same &= one[place] == other[place];
    }
    same
}

fn is_same<A: Allocator + Copy>(one: &Entry<A>, other: &Entry<A>) -> bool
    ensures { IsTrue result ↔ (one.now ≡ other.now) }
{
    are_equal(one.main().0.as_slice(), other.main().0.as_slice()) && one.parts() == other.parts()
}

pub(crate) fn are_same<A: Allocator + Copy>(
    mut some: Rest<'_, Entry<A>, A>,
    mut others: Rest<'_, Entry<A>, A>,
) -> bool
    ensures { IsTrue result ↔ (some.entry ≡ others.entry) }
{
    'entries: while let Some(one) = some.next() {
        let Some(other) = others.next() else {
            return false;
        };
        if !is_same(one, other) {
            return false;
        }
    }
    others.peek().is_none()
}
