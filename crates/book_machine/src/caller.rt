/// Who calls. Session k and worker k are two callers.
#[derive(Clone, Copy, Debug, PartialEq, Eq)]
pub enum Caller {
    /// The analyst's session of this number.
    Session(u64),
    /// The worker of this number.
    Worker(u64),
}
