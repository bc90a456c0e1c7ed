ghost use Rattle.std.specs.Prelude.{◌≤◌};
ghost use Rattle.checkpoints.specs.Spacing.{spacing_limit};
ghost use Rattle.workers.specs.Callers.{callers_limit};

/// What the program's words choose.
#[derive(Clone, Copy, Debug, PartialEq, Eq)]
pub struct Options {
    /// The machine's processors, where the words give them.
    pub procs: Option<u64>,
    /// At most so many event seconds to a segment of a session's runs, 1 to 65,536.
    pub spacing: u32,
    /// How many workers simulate beside each other, 1 to 64.
    pub workers: u32,
    ghost some_spacing: { 1 ≤ spacing },
    ghost spacing_fits: { spacing ≤ spacing_limit },
    ghost some_workers: { 1 ≤ workers },
    ghost workers_fit: { workers ≤ callers_limit },
}
