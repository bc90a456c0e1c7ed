//! Reads and writes logs of the Standard Workload Format, version 2, exactly.
//!
//! The format of the Parallel Workloads Archive, without a simulator. The crate stands alone: take it
//! into a program of your own by listing it in your `crates.txt`. It gives the whole format back,
//! decimals, comments and partial lines included, and what it returns is proved: the reader accepts
//! exactly the texts of the format (this project's profile, in docs/guide.md), and what the writer
//! writes is read back as the same value.
//!
//! <!-- compiled as crates/check_logs/src/example.rt -->
//!
//! ```rust
//! use std::alloc::Allocator;
//! use swf_text::{SwfFault, header_number, read_swf};
//!
//! /// The machine's processors, as the comments of a log tell them.
//! pub fn processors<A: Allocator + Copy>(alloc: A, bytes: &[u8]) -> Result<Option<u64>, SwfFault> {
//!     let text = read_swf(alloc, bytes)?;
//!     Ok(header_number(&text, b"MaxProcs"))
//! }
//! ```
//!
//! # Values
//!
//! A `Value` is a number of a log in millionths, at most 10^12 in size. `Value::from_bytes` reads
//! one, `millionths()` gives it exactly, and `whole()` to the nearest whole number, halves up.
//! `Fields` is the eighteen values of a line, first field first.
//!
//! # Entries and texts
//!
//! An `Entry` is a job's summary line and its partial lines, as a log keeps them. `number()`,
//! `submit()` (whole seconds), `field(place)` and `value(place)` (places 1 to 18), `main()` and
//! `parts()` read it; `copy()` makes another.
//!
//! An `EntryLines` is the same lines in full width, in which an entry is made and changed.
//! `EntryLines::new(main, parts)` returns them, or the first of their faults: `BadJobNumber`,
//! `BadSubmit`, `BadStatus` (the summary line has the status of a partial one), `BadPart` (a part has
//! another job number, or no partial status); `set_field(place, value)` changes a field other than
//! the first. Neither takes memory. `Entry::of_lines(&lines)` packs them, and `entry.lines()` gives
//! those of an entry. Contracts see one and the same value of both.
//!
//! A `SwfText` is the comments and the entries of a log, in order. Job numbers are distinct, and
//! there are at most 4,194,304 entries.
//!
//! # Reading
//!
//! `read_swf(alloc, bytes)` reads a log that lies in memory, in one pass. It returns Ok(t) exactly if
//! the bytes are a text of t. Otherwise a `SwfFault` names the first faulty line, counted from 1, and
//! the first check that it fails; `FaultKind` lists the ten kinds in their order, the last of which
//! is out of memory at the line that was being read. It displays as `line 3: BadNumber 4`.
//!
//! A log may also be read in pieces: `line_bounds(alloc, bytes)` says where each line lies,
//! `read_line(line)` reads one line and takes no memory, and `assemble(alloc, bytes, bounds,
//! readings)` puts the log together. What it returns is what `read_swf` returns, except that it may
//! run out of memory in other places. So lines can be read side by side. `packed_line(line)` reads a
//! job line without faults into a `PackedLine`, four bytes a value, if each value is -1, a whole
//! number up to 3,999,999,998 or a number of hundredths; None says nothing. `Entry::of_packed(alloc,
//! &line)` makes the entry of such a summary line and takes no memory; `job_number`,
//! `is_before_start` and `is_partial` test the line first. Or lines are added one after another,
//! without all readings at once: `split_line` cuts the first line off, and a `Builder` takes each
//! line with its reading (`add_read`, `finish`). The crate `parallel_reader` does so:
//! `read_parallel(rt, alloc, bytes)` reads as `read_swf` does, with a thread for each processor.
//!
//! # Writing
//!
//! `write_swf(&text, &mut writer)` writes the canonical text: all comments, then each entry's lines,
//! eighteen numbers with one space between. A number is written without leading zeros, without
//! trailing zeros behind the point, and without a point if it is whole: `007.50` becomes `7.5`,
//! `100.0` becomes `100`, `-0.0000001` becomes `0`. It takes no memory. `WriteFault::Device` comes if
//! the writer returns an error or takes no byte; what was written then is a prefix of the text.
//!
//! Reading, writing and reading again gives the same value; writing what was read, reading it and
//! writing it again gives the same bytes (`round_trip_law`). For comments that you make yourself:
//! they begin with `;`, hold no line feed, don't end with a carriage return and fit a line, 65,536
//! bytes.
//!
//! `header_number(&text, label)` gives the number of the first comment of the form `; Label: 123`.
//!
//! # Pieces
//!
//! For formats beside the log's own lines, as scripts are: `next_word(bytes)` splits off the first
//! word between blanks, `from_first` drops the blanks at the front and `without_returns` the carriage
//! returns at the end; `are_digits`, `read_digits` (at most a trillion) and `digits_value` (at most
//! eighteen digits) read digits. None takes memory.
//!
//! # Memory
//!
//! Every type that owns memory takes its allocator first when it is made, any `A: Allocator + Copy`.
//! Out of memory is the one type `Memory`, or the kind `FaultKind::Memory`. A read log takes about
//! 100 bytes an entry without parts. An entry without parts packs its summary line if each value is
//! -1, a whole number from 0 to 3,999,999,998, or a number of hundredths from 0 to 2,949,672.95; any
//! other summary line, and each line of an entry with parts, takes 144 bytes more.
#![tactic(auto)]

mod assembly;
mod builder;
mod checks;
mod entry;
mod entry_lines;
mod fault;
mod front;
mod header;
mod laws;
mod limits;
mod line;
mod memory;
mod number;
mod packed;
mod reader;
mod scan;
mod seen;
mod spelling;
mod text;
mod value;
mod walk;
mod writer;

pub use assembly::{assemble, line_at, line_bounds};
pub use builder::Builder;
pub use entry::Entry;
pub use entry_lines::EntryLines;
pub use fault::{EntryFault, FaultKind, SwfFault, WriteFault};
pub use front::packed_front;
pub use header::{digits_value, header_number};
pub use laws::{first_fault_law, round_trip_law, spelling_law};
pub use limits::{ENTRY_LIMIT, LINE_LIMIT};
pub use line::{Fields, LineFault, LineRead};
pub use memory::Memory;
pub use number::{are_digits, read_digits};
pub use packed::PackedLine;
pub use reader::{read_swf, split_line};
pub use scan::{from_first, next_word, packed_line, read_line, without_returns};
pub use text::SwfText;
pub use value::Value;
pub use writer::{write_bytes, write_swf};
