use book_machine::{Note, Reply};
use job_table::EditFault;
use scenarios::AddFault;
use std::alloc::Global;

/// How many kinds of replies are counted.
const KINDS: usize = 24;

fn kind_of_edit(fault: EditFault) -> usize {
    match fault {
        EditFault::NoSuchJob => 7,
        EditFault::DuplicateJob => 9,
        EditFault::BadField => 10,
        EditFault::BadValue => 11,
        _ => KINDS,
    }
}

fn kind_of_add(fault: AddFault) -> usize {
    match fault {
        AddFault::NameTaken => 8,
        AddFault::BadName => 12,
        AddFault::TooMany => 13,
        _ => KINDS,
    }
}

// The kind of a reply, from 0; that of faults that can't come is the number of kinds.
fn kind_of(reply: &Reply) -> usize {
    match reply {
        Reply::Edited { .. } => 0,
        Reply::Added { .. } => 1,
        Reply::Dropped { .. } => 2,
        Reply::Retried => 3,
        Reply::Shown { .. } => 4,
        Reply::Claimed { base: Some(_), .. } => 5,
        Reply::Finished { .. } => 6,
        Reply::EditRefused(fault) => kind_of_edit(*fault),
        Reply::AddRefused(fault) => kind_of_add(*fault),
        Reply::NoSuchScenario => 14,
        Reply::NoneDue => 15,
        Reply::Claimed { .. } => 16,
        Reply::TooManyTickets => 17,
        Reply::UnknownTicket => 18,
        Reply::Stranger => 19,
        Reply::Stale { .. } => 20,
        Reply::GivenUp => 21,
        Reply::NotYet => 22,
        Reply::Behind { .. } => 23,
    }
}

/// How often each kind of replies came.
#[derive(Clone, Copy)]
pub(crate) struct Tally {
    counts: [u64; 24],
}

impl Tally {
    /// No reply.
    pub(crate) const NONE: Tally = Tally { counts: [0; 24] };

    pub(crate) fn add(&mut self, notes: &[Note<Global>]) {
        for note in notes {
            if let Some(count) = self.counts.get_mut(kind_of(&note.reply)) {
                *count = count.saturating_add(1);
            }
        }
    }

    /// How many replies came.
    pub(crate) fn all(&self) -> u64 {
        let mut all: u64 = 0;
        for count in self.counts.iter() {
            all = all.saturating_add(*count);
        }
        all
    }

    /// How often the rarest kind came.
    pub(crate) fn fewest(&self) -> u64 {
        let mut fewest = u64::MAX;
        for count in self.counts.iter() {
            fewest = fewest.min(*count);
        }
        fewest
    }
}
