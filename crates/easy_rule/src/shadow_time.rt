/// When the first waiting job can start at the latest, if each running job ends when it is expected
/// to.
#[derive(Clone, Copy, Debug, PartialEq, Eq)]
pub struct Shadow {
    /// The shadow time: the least second at which enough processors are available.
    pub time: u64,
    /// The extra processors: what is available then beyond the job's size.
    pub extra: u64,
}
