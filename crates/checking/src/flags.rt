use std::sync::atomic::{AtomicU64, Ordering};

/// So many turns are waited at most, for all flags together.
const TURNS: u64 = 1_000_000_000;

/// The flag that another one did not come in time.
const LATE: u64 = 1;

/// Flags that one thread sets and others wait for: bits of a number, but the lowest.
#[derive(Drop)]
pub struct Flags {
    set: AtomicU64,
    turns: AtomicU64,
}

impl Flags {
    /// No flag is set.
    pub fn new() -> Flags {
        Flags {
            set: AtomicU64::new(0),
            turns: AtomicU64::new(0),
        }
    }

    /// Sets a flag.
    pub fn set(&self, flag: u64) {
        self.set.fetch_or(flag, Ordering::SeqCst);
    }

    fn is_set(&self, flag: u64) -> bool {
        self.set.load(Ordering::SeqCst) & flag != 0
    }

    fn goes_on(&self) -> bool {
        self.turns.fetch_add(1, Ordering::SeqCst) < TURNS
    }

    // Whether a flag is set before the last turn.
    fn comes(&self, flag: u64) -> bool {
        for _ in 0..TURNS {
            if self.is_set(flag) {
                return true;
            }
            if !self.goes_on() {
                return false;
            }
        }
        false
    }

    /// Waits for a flag.
    pub fn wait(&self, flag: u64) {
        if !self.comes(flag) {
            self.set(LATE);
        }
    }

    /// Whether each flag came in time that was waited for.
    pub fn are_in_time(&self) -> bool {
        !self.is_set(LATE)
    }
}
