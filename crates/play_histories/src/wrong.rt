use std::alloc::{AllocError, AllocFailed};
use swf_text;

/// What is wrong with what was played, or what kept it from being played.
#[derive(Clone, Copy)]
pub(crate) enum Wrong {
    Input,
    Memory,
    Refused,
    Journal,
    Seldom,
    Opened,
    Thread,
    Reply,
    Seen,
    Listed,
    Settled,
    Ended,
    Changed,
    Wants,
    Unreported,
    Endless,
    Close,
}

impl Wrong {
    /// The same in words.
    pub(crate) fn text(self) -> &'static str {
        match self {
            Wrong::Input => "a log, an edit, a scenario or a caller could not be made",
            Wrong::Memory => "a growth was refused",
            Wrong::Refused => "refused for its journal or for memory",
            Wrong::Journal => "the plain program goes otherwise over the journal",
            Wrong::Seldom => "a kind of replies came too seldom",
            Wrong::Opened => "more callers were opened than a desk has",
            Wrong::Thread => "a thread could not be started, or a flag did not come in time",
            Wrong::Reply => "a call was answered otherwise than it should be",
            Wrong::Seen => "what a session has seen is not what it was answered",
            Wrong::Listed => "a call was not listed once",
            Wrong::Settled => "a session did not settle",
            Wrong::Ended => "a worker ended otherwise than it should",
            Wrong::Changed => "something changed by a call without memory",
            Wrong::Wants => "a refused growth was not reported once",
            Wrong::Unreported => "a call never ran out of memory",
            Wrong::Endless => "there is no end of growths",
            Wrong::Close => "the desk did not close",
        }
    }
}

pub(crate) fn right_if(holds: bool, wrong: Wrong) -> Result<(), Wrong> {
    if holds { Ok(()) } else { Err(wrong) }
}

impl From<swf_text::Memory> for Wrong {
    fn from(_memory: swf_text::Memory) -> Wrong {
        Wrong::Memory
    }
}

impl From<AllocError> for Wrong {
    fn from(_error: AllocError) -> Wrong {
        Wrong::Memory
    }
}

impl<T: Drop> From<AllocFailed<T>> for Wrong {
    fn from(_error: AllocFailed<T>) -> Wrong {
        Wrong::Memory
    }
}
