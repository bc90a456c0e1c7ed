//! A page of a schedule: some rows that follow one another, and their lines.

ghost use Rattle.std.specs.Prelude.{◌≡◌, ◌+◌, ◌<◌, ◌≤◌, ◌++◌, length, take};
ghost use Rattle.std.specs.List.{flat_map};
ghost use Rattle.report.specs.Pages.{rows_in, lines_in};
ghost use Rattle.report.specs.Schedule.{row_line};

use crate::pieces::verdict;
use crate::schedule::row_numbers;
use crate::source::Source;
use arrayvec::ArrayVec;
use checkpoints::Row;

/// The most rows of a page.
pub(crate) const MOST_ROWS: usize = 256;

/// The bytes of 256 lines. A line has at most 111: five numbers, each of up to 20 digits and behind a
/// blank, and whether the job was killed.
const MOST_BYTES: usize = 28_416;

/// A row that is no job's.
const NO_ROW: Row = Row {
    number: 0,
    submit: 0,
    start: 0,
    end: 0,
    size: 0,
    user: 0,
    killed: false,
};

/// Some rows of a schedule that follow one another, and what was printed of those that it had.
#[derive(Drop)]
pub(crate) struct Page {
    pub(crate) rows: [Row; MOST_ROWS],
    pub(crate) count: usize,
    pub(crate) lines: ArrayVec<u8, MOST_BYTES>,
}

fn put_all(lines: &mut ArrayVec<u8, MOST_BYTES>, bytes: &[u8])
    requires { length lines.old.items + length bytes.now ≤ 28416 }
    ensures { lines.new.items ≡ lines.old.items ++ bytes.now }
{
    let Ok(()) = lines.try_extend_from_slice(bytes) else {
        unreachable!()
    };
}

fn put_row(lines: &mut ArrayVec<u8, MOST_BYTES>, row: &Row)
    requires { length lines.old.items + 111 ≤ 28416 }
    ensures line { lines.new.items ≡ lines.old.items ++ row_line row.now }
    ensures short { length lines.new.items ≤ length lines.old.items + 111 }
{
    let numbers = row_numbers(row);
    put_all(lines, &numbers.line[numbers.begin..]);
    put_all(lines, verdict(row.killed));
}

fn put_rows(lines: &mut ArrayVec<u8, MOST_BYTES>, rows: &[Row])
    requires { length rows.now ≤ 256 }
    ensures { lines.new.items ≡ flat_map row_line rows.now }
{
    lines.clear();
    for row in rows {
        put_row(lines, row);
    }
}

fn take_rows<S: Source>(taken: &mut [Row], rows: &mut S) -> usize
    ensures capacity { result ≤ length taken.new }
    ensures same { length taken.new ≡ length taken.old }
    ensures rows { take result taken.new ++ S.rows rows.new ≡ S.rows rows.old }
    ensures some { 0 < length taken.old → 0 < length (S.rows rows.old) → 0 < result }
{
    let mut count = 0usize;
    'rows: while count < taken.len() {
        let Some(row) = rows.next_row() else {
            return count;
        };
        taken[count] = row;
        count += 1;
    }
    count
}

impl Page {
    pub(crate) fn new() -> Page {
        Page {
            rows: [NO_ROW; MOST_ROWS],
            count: 0,
            lines: ArrayVec::new(),
        }
    }

    pub(crate) fn take<S: Source>(&mut self, rows: &mut S)
        ensures rows { rows_in self.new ++ S.rows rows.new ≡ S.rows rows.old }
        ensures some { 0 < length (S.rows rows.old) → 0 < length (rows_in self.new) }
    {
        self.count = take_rows(self.rows.as_mut_slice(), rows);
    }

    pub(crate) fn print(&mut self)
        ensures rows { rows_in self.new ≡ rows_in self.old }
        ensures lines { lines_in self.new ≡ flat_map row_line (rows_in self.old) }
    {
        let count = self.count.min(MOST_ROWS);
        put_rows(&mut self.lines, &self.rows[..count]);
    }
}
