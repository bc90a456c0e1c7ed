// `Packed` keeps the allocator for lines that may come; the first of `Lines` is the summary line.
ghost use Rattle.std.specs.Prelude.{◌≡◌, ◌++◌, ◌∷◌, ◌≤◌, ◌<◌, ◌&&◌, [], OnOk, OnErr, IfOk, map, true, nat_abs, nat_le, pos, Some, None, if◌then◌else◌};
ghost use Rattle.swf_text.specs.Limits.{whole_limit};
ghost use Rattle.swf_text.specs.Entry.{HasNumber, is_partial, field, values, IsEntry, number_of_entry, submit_of};
ghost use Rattle.swf_text.specs.Number.{whole_of};
ghost use Rattle.swf_text.specs.Packed.{unpacked};

use crate::entry_lines::EntryLines;
use crate::line::Fields;
use crate::memory::Memory;
use crate::packed::PackedLine;
use crate::value::Value;
use std::alloc::Allocator;
use std::marker::Model;

/// A job of a log: its summary line, and the lines of its partial executions, in order.
///
/// A summary line without partial ones is packed, into 72 bytes in place of 144, if a `PackedLine` can
/// hold its values. The lines of any other entry take memory.
#[derive(Drop)]
pub struct Entry<A: Allocator + Copy> {
    kept: Kept<A>,
}

#[derive(Drop)]
enum Kept<A: Allocator + Copy> {
    Packed(PackedLine, A),
    Lines(Vec<Fields, A>),
}

impl<A: Allocator + Copy> Model for Entry<A> {
    ghost use Rattle.swf_text.specs.Entry.{LogEntry, IsEntry};
    ghost use Rattle.swf_text.specs.Kept.{entry_in};

    ghost Value = { LogEntry };

    ghost view = { λ e. entry_in e.kept };

    ghost invariant = { λ e. IsEntry (entry_in e.kept) };
}

fn with_first<A: Allocator + Copy>(
    alloc: A,
    line: &Fields,
    others: &[Fields],
) -> Result<Vec<Fields, A>, Memory>
    ensures { IfOk result (λ lines. lines.items ≡ line.now ∷ others.now) }
{
    let mut lines = Vec::with_capacity(alloc, others.len() + 1)?;
    lines.push(*line)?;
    lines.extend_from_slice(others)?;
    Ok(lines)
}

impl<A: Allocator + Copy> Entry<A> {
    fn of_parts(alloc: A, main: &Fields, parts: &[Fields]) -> Result<Entry<A>, Memory>
        requires { IsEntry (record { main = main.now.0; parts = map values parts.now }) }
        ensures { IfOk result (λ entry. entry ≡ record { main = main.now.0; parts = map values parts.now }) }
    {
        if parts.is_empty() {
            if let Some(packed) = PackedLine::of(main) {
                let kept = Kept::Packed(packed, alloc);
                return Ok(Entry { kept });
            }
        }
        let kept = Kept::Lines(with_first(alloc, main, parts)?);
        Ok(Entry { kept })
    }

    /// The entry of these lines, on the allocator that they keep. Memory where the growth for the
    /// partial lines, or for a summary line that can't be packed, is refused.
    pub fn of_lines(lines: &EntryLines<A>) -> Result<Entry<A>, Memory>
        ensures { IfOk result (λ entry. entry ≡ lines.now) }
    {
        Entry::of_parts(lines.allocator(), lines.main(), lines.parts())
    }

    /// The entry of a packed summary line alone. Takes no memory.
    pub fn of_packed(alloc: A, main: &PackedLine) -> Entry<A>
        requires { IsEntry (record { main = unpacked main.now; parts = [] }) }
        ensures { result ≡ record { main = unpacked main.now; parts = [] } }
    {
        let kept = Kept::Packed(*main, alloc);
        Entry { kept }
    }

    pub(crate) fn of_main(alloc: A, main: &Fields) -> Result<Entry<A>, Memory>
        requires { IsEntry (record { main = main.now.0; parts = [] }) }
        ensures { IfOk result (λ entry. entry ≡ record { main = main.now.0; parts = [] }) }
    {
        Entry::of_parts(alloc, main, &[])
    }

    /// The job number: field 1 of the summary line, at most a trillion.
    pub fn number(&self) -> u64
        ensures exact { HasNumber self.now.main result }
        ensures number { result ≡ number_of_entry self.now }
        ensures limit { result ≤ whole_limit }
        ensures entry { IsEntry self.now }
    {
        self.value(1).millionths() as u64 / 1_000_000
    }

    /// The second in which the job is submitted: field 2, to the nearest second, halves up; at
    /// most a trillion.
    pub fn submit(&self) -> u64
        ensures field { pos result ≡ whole_of (field self.now.main 2) }
        ensures second { result ≡ submit_of self.now }
        ensures limit { result ≤ whole_limit }
        ensures entry { IsEntry self.now }
    {
        self.whole(2) as u64
    }

    /// A field of the summary line, the first of which is field 1; None outside 1 to 18.
    pub fn field(&self, place: usize) -> Option<Value>
        ensures { result ≡ (if nat_le 1 place && nat_le place 18 then Some (field self.now.main place) else None) }
    {
        if place == 0 || place > 18 {
            return None;
        }
        Some(self.value(place))
    }

    /// A field of the summary line, of 1 to 18.
    pub fn value(&self, place: usize) -> Value
        requires low { 1 ≤ place }
        requires high { place ≤ 18 }
        ensures value { result ≡ field self.now.main place }
        ensures entry { IsEntry self.now }
    {
        match &self.kept {
            Kept::Packed(packed, _) => packed.value(place - 1),
            Kept::Lines(lines) => lines[0].0[place - 1],
        }
    }

    /// A field of the summary line, of 1 to 18, to the nearest whole number, halves up, as seconds
    /// are taken from a log.
    pub fn whole(&self, place: usize) -> i64
        requires low { 1 ≤ place }
        requires high { place ≤ 18 }
        ensures value { result ≡ whole_of (field self.now.main place) }
        ensures within { nat_abs result ≤ whole_limit }
        ensures entry { IsEntry self.now }
    {
        match &self.kept {
            Kept::Packed(packed, _) => packed.whole(place - 1),
            Kept::Lines(lines) => lines[0].0[place - 1].whole(),
        }
    }

    /// The summary line.
    pub fn main(&self) -> Fields
        ensures main { result.0 ≡ self.now.main }
        ensures entry { IsEntry self.now }
    {
        match &self.kept {
            Kept::Packed(packed, _) => packed.fields(),
            Kept::Lines(lines) => lines[0],
        }
    }

    /// The partial lines, in order.
    pub fn parts(&self) -> &[Fields]
        ensures { map values result.now ≡ self.now.parts }
    {
        match &self.kept {
            Kept::Packed(_, _) => &[],
            Kept::Lines(lines) => &lines.as_slice()[1..],
        }
    }

    /// The lines of the entry, on the allocator that it keeps; Memory where the growth for its
    /// partial lines is refused.
    pub fn lines(&self) -> Result<EntryLines<A>, Memory>
        ensures { IfOk result (λ lines. lines ≡ self.now) }
    {
        let parts = Vec::from_slice(self.allocator(), self.parts())?;
        Ok(EntryLines::of_parts(self.main(), parts))
    }

    fn allocator(&self) -> A {
        match &self.kept {
            Kept::Packed(_, alloc) => *alloc,
            Kept::Lines(lines) => *lines.allocator(),
        }
    }

    /// The same entry once more, on the allocator that this one keeps; Memory where the growth for
    /// lines that aren't packed is refused.
    pub fn copy(&self) -> Result<Entry<A>, Memory>
        ensures { IfOk result (λ entry. entry ≡ self.now) }
    {
        let kept = match &self.kept {
            Kept::Packed(packed, alloc) => Kept::Packed(*packed, *alloc),
            Kept::Lines(lines) => {
                Kept::Lines(Vec::from_slice(*lines.allocator(), lines.as_slice())?)
            }
        };
        Ok(Entry { kept })
    }

    pub(crate) fn add_part(&mut self, part: Fields) -> Result<(), Memory>
        requires same { field part.0 1 ≡ field self.old.main 1 }
        requires partial { is_partial (field part.0 11) ≡ true }
        ensures main { self.new.main ≡ self.old.main }
        ensures entry { IsEntry self.new }
        ensures added { OnOk result (self.new ≡ record self.old { parts = self.old.parts ++ part.0 ∷ [] }) }
        ensures kept { OnErr result (self.new ≡ self.old) }
    {
        match &mut self.kept {
            Kept::Packed(packed, alloc) => {
                let lines = with_first(*alloc, &packed.fields(), &[part])?;
                self.kept = Kept::Lines(lines);
            }
            Kept::Lines(lines) => lines.push(part)?,
        }
        Ok(())
    }
}
