// Histories of a book of two jobs, worked by hand.
use book_machine::SettleState;
use checking::Written;
use scenarios::Order;

/// A job of the whole machine that runs for half its estimate, and one with a long estimate that waits
/// for it.
pub(crate) const LONG: &[u8] = b"1 0 -1 50 10 -1 -1 10 100 -1 1 7 -1 -1 -1 -1 -1 -1
2 10 -1 10 10 -1 -1 10 100 -1 1 7 -1 -1 -1 -1 -1 -1
";

/// What is called. A scenario is named by how many were added before it.
#[derive(Clone, Copy)]
pub(crate) enum Said {
    Edit(Written),
    Add(&'static str),
    DropNamed(&'static str),
    Retry(usize),
    /// A scenario, and the version that was seen.
    View(usize, u64),
    Claim,
    /// The ticket's task makes its run, and leaves it with the ticket.
    Deliver(u64),
    /// The run that the ticket's task makes is handed in.
    Finish(u64),
    /// The same, where the task has left none.
    HandIn(u64),
    /// The run of a log is in which this field of job 2 is another.
    FinishOther(u64, u8),
    /// The run of the ticket's log is, on so many processors and in this order of backfills.
    FinishUnder(u64, u64, Order),
    /// The run that another ticket's task makes is.
    FinishOf(u64, u64),
    /// What the ticket's task has left is.
    FinishLeft(u64),
    GiveUp(u64),
    /// The id of a scenario by its name.
    Find(&'static str),
    /// The version of what is read of one moment.
    Read,
    /// How far all scenarios are, beside a version that was seen.
    Settled(u64),
    /// How many notes the journal has.
    Notes,
}

/// What is answered.
#[derive(Clone, Copy, PartialEq, Eq)]
pub(crate) enum Answered {
    /// A version, the number of a scenario, or of notes.
    Number(u64),
    /// Ticket and version; the version of the base, and how many edits it has.
    Claimed(u64, u64, Option<(u64, usize)>),
    /// The event seconds that were worked, and the segments that were reused, of a run that was made
    /// of a base.
    Made(Option<(u64, u64)>),
    Settled(SettleState),
    Done,
    /// A run of this version is published already.
    Stale(u64),
    /// No scenario is due or has the name, or the task has left no run.
    Nothing,
    Refused(&'static str),
}

/// Job 1 waits for five seconds, on which no run depends.
pub(crate) const FIVE: Said = Said::Edit(Written::Change(1, 3, b"5"));

/// Job 2 runs for so many seconds.
const TWENTY: Said = Said::Edit(Written::Change(2, 4, b"20"));

const THIRTY: Said = Said::Edit(Written::Change(2, 4, b"30"));

/// Job 5 joins, with a partial line.
const INSERT: Said = Said::Edit(Written::Insert(
    b"5 4 -1 500 2 -1 -1 2 500 -1 1 8 -1 -1 -1 -1 -1 -1
5 4 -1 100 2 -1 -1 2 500 -1 2 8 -1 -1 -1 -1 -1 -1
",
));

/// It leaves.
const REMOVE: Said = Said::Edit(Written::Remove(5));

/// Seconds 10 and 50 are worked, and the one at which job 2 ends; the first segment is reused.
const MADE: Answered = Answered::Made(Some((3, 1)));

const UNKNOWN: Answered = Answered::Refused("UnknownTicket");

const STRANGER: Answered = Answered::Refused("Stranger");

const NO_SCENARIO: Answered = Answered::Refused("NoSuchScenario");

type Rows = &'static [(Said, Answered)];

/// Each call goes well.
pub(crate) const EACH: Rows = &[
    (Said::Add("base"), Answered::Number(1)),
    (Said::Find("base"), Answered::Number(1)),
    (Said::Claim, Answered::Claimed(1, 0, None)),
    (Said::HandIn(1), Answered::Number(0)),
    (Said::View(0, 0), Answered::Number(0)),
    (TWENTY, Answered::Number(1)),
    (Said::Claim, Answered::Claimed(2, 1, Some((0, 1)))),
    (Said::GiveUp(2), Answered::Done),
    (Said::Retry(0), Answered::Done),
    (Said::Claim, Answered::Claimed(3, 1, Some((0, 1)))),
    (Said::Deliver(3), MADE),
    (Said::FinishLeft(3), Answered::Number(1)),
    (INSERT, Answered::Number(2)),
    (Said::Claim, Answered::Claimed(4, 2, Some((1, 1)))),
    (Said::Finish(4), Answered::Number(2)),
    (REMOVE, Answered::Number(3)),
    (Said::Read, Answered::Number(3)),
    (Said::DropNamed("base"), Answered::Number(1)),
    (Said::Find("base"), Answered::Nothing),
];

/// Runs come late, twice and from strangers.
pub(crate) const RUNS: Rows = &[
    (Said::Add("base"), Answered::Number(1)),
    (Said::View(0, 0), Answered::Refused("NotYet")),
    (FIVE, Answered::Number(1)),
    (Said::Claim, Answered::Claimed(1, 1, None)),
    (Said::Claim, Answered::Nothing),
    (THIRTY, Answered::Number(2)),
    (Said::Claim, Answered::Claimed(2, 2, None)),
    (Said::Finish(2), Answered::Number(2)),
    (Said::Finish(1), Answered::Stale(2)),
    (Said::Finish(1), UNKNOWN),
    (INSERT, Answered::Number(3)),
    (Said::Claim, Answered::Claimed(3, 3, Some((2, 1)))),
    (Said::FinishOther(3, 3), STRANGER),
    (Said::View(0, 3), Answered::Refused("Behind")),
    (Said::View(0, 2), Answered::Number(2)),
    (Said::HandIn(3), Answered::Number(3)),
    (Said::View(0, 3), Answered::Number(3)),
    (Said::GiveUp(3), UNKNOWN),
];

/// A task leaves its run with its ticket, whoever hands it in; before that there is none, and the ticket
/// stands on. Then a run is left for a version when a newer one is published.
const LEFT: Rows = &[
    (Said::Add("base"), Answered::Number(1)),
    (Said::FinishLeft(1), UNKNOWN),
    (Said::Claim, Answered::Claimed(1, 0, None)),
    (Said::FinishLeft(1), Answered::Nothing),
    (Said::Finish(1), Answered::Number(0)),
    (Said::FinishLeft(1), UNKNOWN),
    (TWENTY, Answered::Number(1)),
    (Said::Claim, Answered::Claimed(2, 1, Some((0, 1)))),
    (Said::Deliver(2), MADE),
    (Said::FinishLeft(2), Answered::Number(1)),
    (Said::View(0, 1), Answered::Number(1)),
    (THIRTY, Answered::Number(2)),
    (Said::Claim, Answered::Claimed(3, 2, Some((1, 1)))),
    (TWENTY, Answered::Number(3)),
    (Said::Claim, Answered::Claimed(4, 3, Some((1, 2)))),
    (Said::Deliver(4), Answered::Made(Some((0, 4)))),
    (Said::FinishLeft(4), Answered::Number(3)),
    (Said::FinishLeft(3), Answered::Nothing),
    (Said::Deliver(3), MADE),
    (Said::FinishLeft(3), Answered::Stale(3)),
    (Said::FinishLeft(3), UNKNOWN),
];

/// A dropped scenario's ticket and id are worth nothing afterwards, and its name is free.
const DROPPED: Rows = &[
    (Said::Add("big"), Answered::Number(1)),
    (Said::Claim, Answered::Claimed(1, 0, None)),
    (Said::DropNamed("big"), Answered::Number(1)),
    (Said::DropNamed("big"), NO_SCENARIO),
    (Said::Add("big"), Answered::Number(2)),
    (Said::Finish(1), UNKNOWN),
    (Said::View(0, 0), NO_SCENARIO),
    (Said::View(1, 0), Answered::Refused("NotYet")),
    (Said::Retry(0), NO_SCENARIO),
    (Said::Claim, Answered::Claimed(2, 0, None)),
];

/// A run that was given up is claimed again after the next edit, or where it is tried again.
const GIVEN_UP: Rows = &[
    (Said::Settled(0), Answered::Settled(SettleState::Done)),
    (Said::Add("base"), Answered::Number(1)),
    (Said::Claim, Answered::Claimed(1, 0, None)),
    (Said::GiveUp(1), Answered::Done),
    (
        Said::Edit(Written::Remove(99)),
        Answered::Refused("NoSuchJob"),
    ),
    (Said::Claim, Answered::Nothing),
    (FIVE, Answered::Number(1)),
    (Said::Claim, Answered::Claimed(2, 1, None)),
    (THIRTY, Answered::Number(2)),
    (Said::GiveUp(2), Answered::Done),
    (Said::Claim, Answered::Claimed(3, 2, None)),
    (Said::GiveUp(3), Answered::Done),
    (Said::Settled(2), Answered::Settled(SettleState::Failed(1))),
    (Said::Retry(0), Answered::Done),
    (Said::Settled(2), Answered::Settled(SettleState::Waiting)),
    (Said::Claim, Answered::Claimed(4, 2, None)),
    (Said::Finish(4), Answered::Number(2)),
    (Said::Settled(2), Answered::Settled(SettleState::Done)),
    (Said::Settled(3), Answered::Settled(SettleState::Waiting)),
];

/// The run of a log in which one field is another is a stranger, whatever field it is, and the ticket
/// stands on.
const OTHERS: Rows = &[
    (Said::Add("base"), Answered::Number(1)),
    (Said::Claim, Answered::Claimed(1, 0, None)),
    (Said::FinishOther(1, 2), STRANGER),
    (Said::FinishOther(1, 3), STRANGER),
    (Said::FinishOther(1, 4), STRANGER),
    (Said::FinishOther(1, 5), STRANGER),
    (Said::FinishOther(1, 6), STRANGER),
    (Said::FinishOther(1, 7), STRANGER),
    (Said::FinishOther(1, 8), STRANGER),
    (Said::FinishOther(1, 9), STRANGER),
    (Said::FinishOther(1, 10), STRANGER),
    (Said::FinishOther(1, 11), STRANGER),
    (Said::FinishOther(1, 12), STRANGER),
    (Said::FinishOther(1, 13), STRANGER),
    (Said::FinishOther(1, 14), STRANGER),
    (Said::FinishOther(1, 15), STRANGER),
    (Said::FinishOther(1, 16), STRANGER),
    (Said::FinishOther(1, 17), STRANGER),
    (Said::FinishOther(1, 18), STRANGER),
    (Said::Finish(1), Answered::Number(0)),
];

/// So are a run of an older version, and one of the ticket's log on another machine or in another order
/// of backfills.
const STRANGERS: Rows = &[
    (Said::Add("base"), Answered::Number(1)),
    (FIVE, Answered::Number(1)),
    (Said::Claim, Answered::Claimed(1, 1, None)),
    (THIRTY, Answered::Number(2)),
    (Said::Claim, Answered::Claimed(2, 2, None)),
    (Said::Finish(2), Answered::Number(2)),
    (Said::Finish(1), Answered::Stale(2)),
    (Said::Notes, Answered::Number(7)),
    (Said::Finish(2), UNKNOWN),
    (INSERT, Answered::Number(3)),
    (Said::Claim, Answered::Claimed(3, 3, Some((2, 1)))),
    (Said::FinishOf(3, 2), STRANGER),
    (Said::FinishUnder(3, 16, Order::Arrival), STRANGER),
    (Said::FinishUnder(3, 10, Order::Shortest), STRANGER),
    (Said::View(0, 0), Answered::Number(2)),
    (
        Said::FinishUnder(3, 10, Order::Arrival),
        Answered::Number(3),
    ),
    (Said::Notes, Answered::Number(15)),
];

/// What follows where a ticket stands for each of the versions 1 to 256.
pub(crate) const CROWDED: Rows = &[
    (FIVE, Answered::Number(257)),
    (Said::Claim, Answered::Refused("TooManyTickets")),
    (Said::Finish(256), Answered::Number(256)),
    (Said::Claim, Answered::Claimed(257, 257, Some((256, 1)))),
];

/// All of them, but for `EACH` and `CROWDED`.
pub(crate) const HISTORIES: &[Rows] = &[RUNS, LEFT, DROPPED, GIVEN_UP, OTHERS, STRANGERS];
