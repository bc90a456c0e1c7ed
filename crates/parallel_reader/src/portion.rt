ghost use Rattle.std.specs.Prelude.{◌≡◌, ◌++◌, ◌<◌, length, take, IfSome, IsTrue};
ghost use Rattle.swf_text.specs.declared.line.LineRead.TheVariants.{Blank};
ghost use Rattle.swf_text.specs.Line.{line_of};
ghost use Rattle.std.specs.List.{after_first};
ghost use Rattle.swf_text.specs.Text.{is_feed, lines};
ghost use Rattle.parallel_reader.specs.Jobs.{IsReadOf, TakesLine};

use swf_text::{LineRead, PackedLine, packed_front, packed_line, read_line, split_line};

/// The bytes behind which a portion of a log ends with its line.
const LEAST_BYTES: usize = 16_384;

/// The most job lines of a portion. A job line has 36 bytes at least, so that portions without very
/// long lines have no more.
const MOST_JOBS: usize = 512;

/// How many job lines were read, and how many lines they and the blank ones are.
#[derive(Clone, Copy)]
pub(crate) struct Counts {
    pub(crate) jobs: usize,
    pub(crate) lines: usize,
}

/// The job lines of a portion of a log, in codes, and how many they are; None where one of its lines
/// is neither blank nor a job line without faults of its own that can be packed, or where there are
/// too many.
#[derive(Clone, Copy)]
pub(crate) struct JobLines {
    pub(crate) jobs: [PackedLine; MOST_JOBS],
    pub(crate) count: Option<Counts>,
}

pub(crate) fn split_portion(bytes: &[u8]) -> (&[u8], &[u8])
    ensures lines { lines result.0.now ++ lines result.1.now ≡ lines bytes.now }
    ensures less { 0 < length bytes.now → length result.1.now < length bytes.now }
{
    if bytes.len() <= LEAST_BYTES {
        return (bytes, &[]);
    }
    let (_line, after) = split_line(&bytes[LEAST_BYTES..]);
    bytes.split_at(bytes.len() - after.len())
}

fn is_blank(line: &[u8]) -> bool
    ensures { IsTrue result → line_of line.now ≡ Blank }
{
    matches!(read_line(line), LineRead::Blank)
}

// None says nothing of the line.
fn read_front<'a>(jobs: &mut [PackedLine], count: usize, bytes: &'a [u8]) -> Option<&'a [u8]>
    ensures same { length jobs.new ≡ length jobs.old }
    ensures kept { take count jobs.new ≡ take count jobs.old }
    ensures line { IfSome result (λ rest. TakesLine bytes.now jobs.old jobs.new count) }
    ensures rest { IfSome result (λ rest. rest.now ≡ after_first is_feed bytes.now) }
{
    if count >= jobs.len() {
        return None;
    }
    packed_front(&mut jobs[count], bytes)
}

fn read_jobs(bytes: &[u8], jobs: &mut [PackedLine]) -> Option<Counts>
    ensures same { length jobs.new ≡ length jobs.old }
    ensures read { IsReadOf (lines bytes.now) jobs.new result }
{
    let mut count = 0usize;
    let mut lines = 0usize;
    let mut rest = bytes;
    'lines: while !rest.is_empty() {
        lines += 1;
        if let Some(after) = read_front(jobs, count, rest) {
            count += 1;
            rest = after;
            continue;
        }
        let (line, after) = split_line(rest);
        match packed_line(line) {
            Some(job) => {
                if count >= jobs.len() {
                    return None;
                }
                jobs[count] = job;
                count += 1;
            }
            None => {
                if !is_blank(line) {
                    return None;
                }
            }
        }
        rest = after;
    }
    Some(Counts { jobs: count, lines })
}

impl JobLines {
    pub(crate) fn new() -> JobLines {
        JobLines {
            jobs: [PackedLine::UNKNOWN; MOST_JOBS],
            count: None,
        }
    }

    pub(crate) fn read(&mut self, bytes: &[u8])
        ensures { IsReadOf (lines bytes.now) self.new.jobs self.new.count }
    {
        self.count = read_jobs(bytes, self.jobs.as_mut_slice());
    }
}
