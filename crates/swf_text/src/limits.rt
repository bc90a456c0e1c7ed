/// The most entries of a log.
pub const ENTRY_LIMIT: usize = 4_194_304;

/// The most bytes of a line, its line feed not counted.
pub const LINE_LIMIT: usize = 65_536;
