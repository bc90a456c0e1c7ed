ghost use Rattle.std.specs.Prelude.{◌≡◌, ◌-◌, ◌≤◌, OnOk, OnErr, IfOk, slice_set, map};
ghost use Rattle.swf_text.specs.Limits.{whole_limit};
ghost use Rattle.swf_text.specs.Entry.{HasNumber, values, entry_made, IsEntry, number_of_entry, field_change};

use crate::checks::{are_parts, is_before_start, is_below_zero, is_partial_line, job_number};
use crate::fault::EntryFault;
use crate::line::Fields;
use crate::memory::Memory;
use crate::value::Value;
use std::alloc::Allocator;
use std::marker::Model;

/// The lines of a job, of which an entry is made, each of full width: the summary line, and the
/// lines of its partial executions, in order.
#[derive(Drop)]
pub struct EntryLines<A: Allocator + Copy> {
    main: Fields,
    parts: Vec<Fields, A>,
}

impl<A: Allocator + Copy> Model for EntryLines<A> {
    ghost use Rattle.std.specs.Prelude.{map};
    ghost use Rattle.swf_text.specs.Entry.{LogEntry, values, IsEntry};

    ghost Value = { LogEntry };

    ghost view = { λ e. record { main = e.main.0; parts = map values e.parts.items } };

    ghost invariant = { λ e. IsEntry (record { main = e.main.0; parts = map values e.parts.items }) };
}

impl<A: Allocator + Copy> EntryLines<A> {
    /// The lines of a job, or the first of their faults in the order of `EntryFault`. Takes no
    /// memory; on a fault the partial lines are dropped.
    pub fn new(main: Fields, parts: Vec<Fields, A>) -> Result<EntryLines<A>, EntryFault>
        ensures { result ≡ entry_made main.0 (map values parts.items) }
    {
        let Some(number) = job_number(&main) else {
            return Err(EntryFault::BadJobNumber);
        };
        if is_before_start(&main) {
            return Err(EntryFault::BadSubmit);
        }
        if is_partial_line(&main) {
            return Err(EntryFault::BadStatus);
        }
        if !are_parts(number, parts.as_slice()) {
            return Err(EntryFault::BadPart);
        }
        Ok(EntryLines { main, parts })
    }

    pub(crate) fn of_parts(main: Fields, parts: Vec<Fields, A>) -> EntryLines<A>
        requires { IsEntry (record { main = main.0; parts = map values parts.items }) }
        ensures { result ≡ record { main = main.0; parts = map values parts.items } }
    {
        EntryLines { main, parts }
    }

    /// The job number: field 1 of the summary line, at most a trillion.
    pub fn number(&self) -> u64
        ensures exact { HasNumber self.now.main result }
        ensures number { result ≡ number_of_entry self.now }
        ensures limit { result ≤ whole_limit }
        ensures entry { IsEntry self.now }
    {
        self.main.0[0].millionths() as u64 / 1_000_000
    }

    /// The summary line.
    pub fn main(&self) -> &Fields
        ensures main { result.now.0 ≡ self.now.main }
        ensures entry { IsEntry self.now }
    {
        &self.main
    }

    /// The partial lines, in order.
    pub fn parts(&self) -> &[Fields]
        ensures { map values result.now ≡ self.now.parts }
    {
        self.parts.as_slice()
    }

    /// The same lines once more, on the allocator that these keep; Memory where the growth for the
    /// partial lines is refused.
    pub fn copy(&self) -> Result<EntryLines<A>, Memory>
        ensures { IfOk result (λ lines. lines ≡ self.now) }
    {
        let parts = Vec::from_slice(*self.parts.allocator(), self.parts.as_slice())?;
        Ok(EntryLines {
            main: self.main,
            parts,
        })
    }

    pub(crate) fn allocator(&self) -> A {
        *self.parts.allocator()
    }

    /// Changes a field of the summary line, 2 to 18. A refused change leaves the lines as they were,
    /// and is refused with the first of these: BadJobNumber for every other place, whatever the value:
    /// 0, 19 and above, which no field has, and 1, the job number, which is never changed;
    /// BadSubmit for a negative submit time; BadStatus for the status of a partial line, 2, 3 or
    /// 4. Takes no memory.
    pub fn set_field(&mut self, place: usize, value: Value) -> Result<(), EntryFault>
        ensures answer { result ≡ field_change place value }
        ensures changed { OnOk result (self.new ≡ record self.old { main = slice_set self.old.main (place - 1) value }) }
        ensures kept { OnErr result (self.new ≡ self.old) }
    {
        if place < 2 || place > 18 {
            return Err(EntryFault::BadJobNumber);
        }
        if place == 2 && is_below_zero(&value) {
            return Err(EntryFault::BadSubmit);
        }
        if place == 11 && value.is_partial() {
            return Err(EntryFault::BadStatus);
        }
        self.main.0[place - 1] = value;
        Ok(())
    }
}
