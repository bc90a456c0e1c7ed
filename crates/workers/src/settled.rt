/// What a session's wait for its runs returns.
#[derive(Clone, Copy, Debug, PartialEq, Eq)]
pub enum Settled {
    /// Every scenario shows a run of the version that the session has seen, or a newer one.
    Done,
    /// This many scenarios show no such run, and all of them are given up.
    Failed(u64),
    /// The desk was stopped while a run was waited for.
    Stopped,
}
