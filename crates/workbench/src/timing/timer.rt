use std::rt::Clock;
use std::time::Instant;

/// Times one part after another, and prints what each took. It notes where the clock or the output fails,
/// so that nobody has to stop half way.
#[derive(Drop)]
pub(crate) struct Timer<'a, R> {
    pub(crate) rt: &'a R,
    start: Instant,
    /// The nanoseconds from the start to where the part began.
    begun: u64,
    failed: bool,
}

/// A timer; none where there is no clock.
pub(crate) fn timer_of<R: Clock>(rt: &R) -> Option<Timer<'_, R>> {
    let start = Instant::now(rt).ok()?;
    Some(Timer {
        rt,
        start,
        begun: 0,
        failed: false,
    })
}

impl<R: Clock + Print> Timer<'_, R> {
    // The nanoseconds since the start.
    fn now(&mut self) -> u64 {
        match self.start.elapsed(self.rt) {
            Ok(since) => u64::try_from(since.as_nanos()).unwrap_or(u64::MAX),
            Err(_) => {
                self.failed = true;
                0
            }
        }
    }

    /// Begins a part.
    pub(crate) fn begin(&mut self) {
        self.begun = self.now();
    }

    /// The nanoseconds since the part began.
    pub(crate) fn took(&mut self) -> u64 {
        self.now().saturating_sub(self.begun)
    }

    /// Notes whether a line was printed.
    pub(crate) fn note(&mut self, is_printed: bool) {
        self.failed = self.failed || !is_printed;
    }

    /// Whether clock and output have served so far.
    pub(crate) fn has_served(&self) -> bool {
        !self.failed
    }
}
