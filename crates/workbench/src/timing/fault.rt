use thiserror::Error;

/// What keeps a log from being timed.
#[derive(Clone, Copy, Debug, Error)]
pub(crate) enum Fault {
    /// The words of the command are none that it takes.
    #[error("no word; or fuzz and how many; or time, a log, a number of processors, and changes, insertions or nothing")]
    Words,
    /// The log could not be read from its file.
    #[error("the log's file cannot be read")]
    File,
    /// It is no log, or memory is short.
    #[error("no log, or no memory for it")]
    Log,
    /// It could not be simulated or printed.
    #[error("it cannot be simulated")]
    Run,
    /// An edit could not be made, or its run not be published.
    #[error("an edit's run cannot be published")]
    Edit,
    /// A run was made from nothing where an old one stood.
    #[error("simulated from nothing")]
    Anew,
    /// The clock or the output failed.
    #[error("the clock or the output fails")]
    Device,
}
