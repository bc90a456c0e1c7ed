ghost use Rattle.std.specs.Prelude.{◌≡◌, ◌↔◌, IsTrue, drop, map};
ghost use Rattle.book_machine.specs.Noted.{noted_of};
ghost use Rattle.workers.specs.Lists.{listed_by, listed_of, part_of, same_caller};

use crate::listed_call::ListedCall;
use book_machine::{Caller, Note};
use std::alloc::Allocator;

pub(crate) fn is_same_caller(one: Caller, two: Caller) -> bool
    ensures { result ≡ same_caller one two }
{
    match (one, two) {
        (Caller::Session(k), Caller::Session(m)) => k == m,
        (Caller::Worker(k), Caller::Worker(m)) => k == m,
        _ => false,
    }
}

fn is_noted<A: Allocator + Copy>(listed: &ListedCall<A>, note: &Note<A>) -> bool
    ensures { IsTrue result ↔ (listed_of listed.now ≡ listed_by (noted_of note.now)) }
{
    listed.call.same(&note.call) && listed.reply == note.reply
}

pub(crate) fn is_part<A: Allocator + Copy>(
    who: Caller,
    list: &[ListedCall<A>],
    notes: &[Note<A>],
) -> bool
    ensures { IsTrue result ↔ (map listed_of list.now ≡ part_of who (map noted_of notes.now)) }
{
    let mut left = list;
    for note in notes {
        if is_same_caller(note.caller, who) {
            let Some((first, rest)) = left.split_first() else {
                return false;
            };
            if !is_noted(first, note) {
                return false;
            }
            left = rest;
        }
    }
    left.is_empty()
}

pub(crate) fn later_notes<A: Allocator + Copy>(journal: &[Note<A>], opening: usize) -> &[Note<A>]
    ensures { result.now ≡ drop opening journal.now }
{
    if opening <= journal.len() {
        &journal[opening..]
    } else {
        &[]
    }
}
