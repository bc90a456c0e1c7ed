/// What a worker calls before and after its work, while it does not hold the lock.
pub trait Gate {
    /// The task of this ticket was claimed, and its work begins now.
    fn before_work(&self, ticket: u64);

    /// The run for this ticket was made, and is handed in now.
    fn before_finish(&self, ticket: u64);
}

/// A gate that does nothing.
#[derive(Clone, Copy, Debug)]
pub struct NoGate;

impl Gate for NoGate {
    fn before_work(&self, _ticket: u64) {}

    fn before_finish(&self, _ticket: u64) {}
}
