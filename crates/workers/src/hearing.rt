// How the history records what the book noted of a call. The book's `version` is called for a clause of its: that it was asked
// of a book.
ghost use Rattle.std.specs.Prelude.{◌≡◌, true, IfSome, length, option_copied};
ghost use Rattle.std.specs.List.{slice_get};
ghost use Rattle.std.specs.Option.{option_map};
ghost use Rattle.book_machine.specs.Noted.{noted_of};
ghost use Rattle.chronicle.specs.Events.{IsAccepted, state_after};
ghost use Rattle.chronicle.specs.Fronts.{Follows};
ghost use Rattle.version_book.specs.Sound.{IsBook};
ghost use Rattle.workers.specs.Lists.{reply_behind};
ghost use Rattle.workers.specs.Tied.{Hears};

use book_machine::{Note, Reply};
use chronicle::{Front, Naming, Whole};
use std::alloc::Allocator;
use version_book::Book;

pub(crate) fn notes_in<A: Allocator + Copy>(book: &Book<A>) -> usize
    ensures count { result ≡ length book.now.journal }
    ensures book { IsBook book.now }
{
    let _version = book.version();
    book.journal().len()
}

fn note_behind<A: Allocator + Copy>(book: &Book<A>, notes: usize) -> Option<&Note<A>>
    ensures { option_map noted_of (option_copied result) ≡ slice_get book.now.journal notes }
{
    book.journal().get(notes)
}

fn heard<A: Allocator + Copy, J: Naming>(
    whole: &mut Whole<J>,
    book: &Book<A>,
    notes: usize,
) -> Option<Reply>
    requires accepted { whole.old.kept ≡ true → IfSome (slice_get book.now.journal notes) (IsAccepted (state_after J.opening whole.old.events)) }
    ensures reply { result ≡ reply_behind notes book.now.journal }
    ensures whole { Hears whole.old (slice_get book.now.journal notes) whole.new }
{
    let note = note_behind(book, notes)?;
    whole.call(note);
    Some(note.reply)
}

pub(crate) fn followed<A: Allocator + Copy, J: Naming>(
    whole: &mut Whole<J>,
    front: &mut Front<J>,
    book: &Book<A>,
    notes: usize,
) -> Option<Reply>
    requires accepted { whole.old.kept ≡ true → IfSome (slice_get book.now.journal notes) (IsAccepted (state_after J.opening whole.old.events)) }
    ensures reply { result ≡ reply_behind notes book.now.journal }
    ensures whole { Hears whole.old (slice_get book.now.journal notes) whole.new }
    ensures front { Follows front.old whole.new front.new }
{
    let reply = heard(whole, book, notes);
    front.follow(whole);
    reply
}
