ghost use Rattle.std.specs.Prelude.{◌≡◌, ◌<◌, ◌++◌, map, length, IfErr, OnOk, vec_len, vec_capacity};
ghost use Rattle.book_machine.specs.Machine.{note_limit};
ghost use Rattle.book_machine.specs.Noted.{call_of, noted_of};
ghost use Rattle.version_book.specs.Steps.{IsNoNote, notes_of};

use crate::refusal::Refusal;
use book_machine::{Call, Caller, Note, Reply};
use std::alloc::Allocator;

const NOTE_LIMIT: usize = 1_000_000;

pub(crate) fn reserve_note<F, A: Allocator + Copy>(
    journal: &mut Vec<Note<A>, A>,
) -> Result<(), Refusal<F>>
    ensures items { journal.new.items ≡ journal.old.items }
    ensures capacity { OnOk result (vec_len journal.new < vec_capacity journal.new) }
    ensures few { OnOk result (length journal.old.items < note_limit) }
    ensures refused { IfErr result (IsNoNote (length journal.old.items)) }
{
    if journal.len() >= NOTE_LIMIT {
        return Err(Refusal::JournalFull);
    }
    journal.reserve(1).map_err(|_| Refusal::Memory)
}

pub(crate) fn note<A: Allocator + Copy>(
    journal: &mut Vec<Note<A>, A>,
    caller: Caller,
    call: Call<A>,
    reply: Option<Reply>,
)
    requires capacity { vec_len journal.old < vec_capacity journal.old }
    ensures { map noted_of journal.new.items ≡ map noted_of journal.old.items ++ notes_of caller (call_of call) reply }
{
    if let Some(reply) = reply {
        journal.push_reserved(Note {
            caller,
            call,
            reply,
        });
    }
}
