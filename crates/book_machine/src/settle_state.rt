/// How far the scenarios of a book are, beside a version that a session has seen.
#[derive(Clone, Copy, Debug, PartialEq, Eq)]
pub enum SettleState {
    /// A scenario shows no run of that version or a newer one, and isn't given up.
    Waiting,
    /// So many scenarios show no such run, and all of them are given up.
    Failed(u64),
    /// Every scenario shows such a run.
    Done,
}
