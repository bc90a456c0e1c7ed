// Whether works are answered as they may be where a growth is refused.
use crate::fuzz::answers::{
    BYE, DAYS, EDITED, FAILED, MEMORY, NO_JOB, NONE_DUE, NOT_YET, REFUSED, STOPPED, TABLE, USERS,
};
use crate::fuzz::texts::{behind, is_of};

// What a script of edits was answered behind so many removals.
fn behind_removals(text: &[u8], removals: usize) -> Option<&[u8]> {
    let mut rest = text;
    for _ in 0..removals {
        rest = rest.strip_prefix(NO_JOB)?;
    }
    Some(rest)
}

// Whether a script of edits, in which so many removals come first, was answered as it should be.
pub(crate) fn are_edited(text: &[u8], removals: usize) -> bool {
    behind_removals(text, removals).is_some_and(|rest| is_of(rest, &EDITED))
}

// The place of the command in which it was refused memory, among those that may be.
pub(crate) fn refused_place(text: &[u8], removals: usize) -> Option<usize> {
    let rest = behind_removals(text, removals)?;
    REFUSED
        .iter()
        .position(|answers| is_of(rest, answers.as_slice()))
}

/// What a view is answered.
#[derive(Clone, Copy, PartialEq, Eq)]
enum Answer {
    /// The run is there.
    Settled,
    /// The run failed.
    Failed,
    /// The desk was stopped, and the run may come yet.
    Stopped,
    Report,
    NotYet,
    Memory,
}

/// The answers of one line.
const LINES: [(&[u8], Answer); 5] = [
    (NONE_DUE, Answer::Settled),
    (FAILED, Answer::Failed),
    (STOPPED, Answer::Stopped),
    (NOT_YET, Answer::NotYet),
    (MEMORY, Answer::Memory),
];

// The answer that stands first, which may be this report, and what stands behind it.
fn first<'t>(text: &'t [u8], report: &[u8]) -> Option<(Answer, &'t [u8])> {
    for (line, answer) in &LINES {
        if let Some(rest) = text.strip_prefix(*line) {
            return Some((*answer, rest));
        }
    }
    Some((Answer::Report, text.strip_prefix(report)?))
}

// Whether a command for a report may be answered so: a run that has failed is not shown, and of one
// that is there it isn't answered that there is none yet.
fn may_be(outcome: Answer, settled: Answer, is_there: bool) -> bool {
    match outcome {
        Answer::Report => settled != Answer::Failed,
        Answer::NotYet => !is_there,
        Answer::Memory => true,
        _ => false,
    }
}

// What stands behind the answers to the commands for reports, where these are such as they may be. The
// run is there where all is settled, and once it was shown.
fn behind_reports(text: &[u8], settled: Answer) -> Option<&[u8]> {
    let mut rest = text;
    let mut is_there = settled == Answer::Settled;
    for report in [TABLE, USERS, DAYS] {
        let (outcome, later) = first(rest, report)?;
        if !may_be(outcome, settled, is_there) {
            return None;
        }
        is_there = is_there || outcome == Answer::Report;
        rest = later;
    }
    Some(rest)
}

// What stands behind the answers to a script of views, where these are such as they may be.
fn behind_answers(text: &[u8]) -> Option<&[u8]> {
    let (settled, rest) = first(text, NONE_DUE)?;
    match settled {
        Answer::Settled | Answer::Failed | Answer::Stopped => {
            behind(behind_reports(rest, settled)?, &[BYE])
        }
        _ => None,
    }
}

fn behind_both(text: &[u8]) -> Option<&[u8]> {
    let second = behind_answers(behind(text, &[b"== 1\n"])?)?;
    behind_answers(behind(second, &[b"== 2\n"])?)
}

fn lines_that_are(text: &[u8], wanted: &[u8]) -> usize {
    text.split(|byte| *byte == b'\n')
        .filter(|line| *line == wanted)
        .count()
}

// Whether at most one thing is said of the growth that was refused: that a command found no memory,
// that the run failed, or that the desk was stopped. Both scripts may be answered of one of the last
// two.
fn is_answered_once(text: &[u8]) -> bool {
    let short = lines_that_are(text, b"refused Memory").min(2);
    let failed = lines_that_are(text, b"failed 1").min(1);
    let stopped = lines_that_are(text, b"stopped").min(1);
    short + failed + stopped <= 1
}

// Whether this may be written of both scripts. All may go well, too: a worker that finds no memory for a
// note where there is nothing left to do ends, and nobody waits for it.
pub(crate) fn are_viewed(text: &[u8]) -> bool {
    behind_both(text).is_some_and(|rest| rest.is_empty()) && is_answered_once(text)
}
