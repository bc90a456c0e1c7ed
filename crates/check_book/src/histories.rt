// Histories of a book, each call of which is answered what was worked by hand; where a growth is refused
// it is refused for memory, has changed nothing, and is answered the same when it is made once more.
use crate::player::Player;
use crate::rows::{Answered, CROWDED, EACH, FIVE, HISTORIES, LONG, RUNS, Said};
use book_machine::Note;
use checking::table_of;
use oracle_book::first_wrong;
use refusing::{Outcome, Trial, survives_refusals};
use std::alloc::{Allocator, Global};
use std::mem::size_of;
use std::process::Abort;
use swf_text::Memory;

// The place of the first note that is wrong by the plain program of the book, where the book is of this
// log, if there is one.
fn wrong_place<A: Allocator + Copy>(
    alloc: A,
    log: &[u8],
    notes: &[Note<A>],
) -> Result<Option<usize>, Memory> {
    match table_of(alloc, log) {
        Some(log) => first_wrong(alloc, log, notes),
        None => Err(Memory),
    }
}

/// Whether the notes of a book of this log are right by the plain program of the book.
pub(crate) fn are_right<A: Allocator + Copy>(
    alloc: A,
    log: &[u8],
    notes: &[Note<A>],
) -> Result<bool, Memory> {
    Ok(wrong_place(alloc, log, notes)?.is_none())
}

fn judged<A: Allocator + Copy>(alloc: A, notes: &[Note<A>]) -> Outcome {
    match are_right(alloc, LONG, notes) {
        Ok(are_right) => Outcome::right_if(are_right),
        Err(Memory) => Outcome::Memory,
    }
}

// The history behind so many notes, and then, where no growth was refused, what came of its journal.
fn played<A: Allocator + Copy>(
    player: &mut Player<A>,
    notes: usize,
    rows: &[(Said, Answered)],
) -> Outcome {
    if !player.has_notes(notes) {
        return Outcome::Before;
    }
    match player.plays(rows) {
        Outcome::Right => judged(player.alloc, player.analyst.book.journal()),
        other => other,
    }
}

/// A history behind so many notes, each call of which is answered so.
#[derive(Clone, Copy)]
struct History(usize, &'static [(Said, Answered)]);

impl Trial for History {
    fn outcome<A: Allocator + Copy>(&self, alloc: A) -> Outcome {
        match Player::new(alloc, LONG, 1) {
            Some(mut player) => played(&mut player, self.0, self.1),
            None => Outcome::Before,
        }
    }
}

#[test]
fn histories_go_on_where_memory_was_refused(rt: HostRuntime) {
    for (place, rows) in HISTORIES.iter().enumerate() {
        assert!(rt;
            survives_refusals(rt.alloc(), &History(0, rows)),
            "history {place}"
        );
    }
}

// A journal gets capacity for 8 notes, and then for as many more as it has: so each call is one that
// needs it, behind some number of notes.
#[test]
fn each_call_is_refused_capacity_for_its_note(rt: HostRuntime) {
    for notes in 0..8usize {
        assert!(rt;
            survives_refusals(rt.alloc(), &History(notes, EACH)),
            "{notes} notes"
        );
    }
}

// Whether one ticket after another is claimed, for the next version each, up to the most that stand.
fn are_claimed(player: &mut Player<Global>) -> bool {
    for version in 1..=256u64 {
        let claimed = [
            (FIVE, Answered::Number(version)),
            (Said::Claim, Answered::Claimed(version, version, None)),
        ];
        if player.plays(&claimed) != Outcome::Right {
            return false;
        }
    }
    true
}

fn goes_on_crowded(player: &mut Player<Global>) -> bool {
    player.plays(&[(Said::Add("base"), Answered::Number(1))]) == Outcome::Right
        && are_claimed(player)
        && player.plays(CROWDED) == Outcome::Right
}

#[test]
fn no_ticket_is_given_where_256_stand(rt: HostRuntime) {
    let player = Player::new(rt.alloc(), LONG, 1);
    assert!(rt; player.is_some_and(|mut player| goes_on_crowded(&mut player)));
}

/// A log in which job 5 stands already.
const FIFTH: &[u8] = b"1 0 -1 50 10 -1 -1 10 100 -1 1 7 -1 -1 -1 -1 -1 -1
2 10 -1 10 10 -1 -1 10 100 -1 1 7 -1 -1 -1 -1 -1 -1
5 20 -1 10 10 -1 -1 10 100 -1 1 7 -1 -1 -1 -1 -1 -1
";

// The place of the first wrong note of the runs' history, if its book were of this log.
fn wrong_run(alloc: Global, log: &[u8]) -> Option<Option<usize>> {
    let mut player = Player::new(alloc, LONG, 1)?;
    let _right = player.plays(RUNS);
    wrong_place(alloc, log, player.analyst.book.journal()).ok()
}

// Without a log the first edit would find no job, and with job 5 it could not join.
#[test]
fn notes_are_judged(rt: HostRuntime) {
    assert!(rt; wrong_run(rt.alloc(), LONG) == Some(None));
    assert!(rt; wrong_run(rt.alloc(), b"") == Some(Some(2)));
    assert!(rt; wrong_run(rt.alloc(), FIFTH) == Some(Some(10)));
}

/// The capacity of a journal of a million notes, which doubles as it grows, in notes.
const CAPACITY: usize = 1_048_576;

#[test]
fn a_full_journal_and_the_half_it_grew_from_are_below_250_megabytes(rt: HostRuntime) {
    assert!(rt; size_of::<Note<Global>>() * (CAPACITY + CAPACITY / 2) <= 250_000_000);
}
