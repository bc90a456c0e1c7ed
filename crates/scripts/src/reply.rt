ghost use Rattle.std.specs.Prelude.{◌≡◌, count_by};
ghost use Rattle.swf_text.specs.Text.{is_feed};
ghost use Rattle.swf_text.specs.Writing.{Writes};
ghost use Rattle.scripts.specs.Lines.{refused};
ghost use Rattle.scripts.specs.Replies.{reply_text};
ghost use Rattle.scripts.specs.Steps.{with_count};

use crate::answer::Answer;
use std::alloc::Allocator;
use std::io::Write;
use swf_text::{WriteFault, write_bytes};
use version_book::Named;

/// The response to a line of a script: nothing, a line, which allocates nothing, a report, or a log.
#[derive(Drop)]
pub(crate) enum Reply<A: Allocator + Copy> {
    /// Nothing is written.
    Nothing,
    /// One line.
    Line(Answer),
    /// The text of a report.
    Report(Vec<u8, A>),
    /// The text of a log; how many lines it has is written before it.
    Saved(Vec<u8, A>),
}

fn feeds(bytes: &[u8]) -> u64
    ensures { result ≡ count_by is_feed bytes.now }
{
    bytes.iter().filter(|byte| **byte == b'\n').count() as u64
}

fn write_saved<W: Write>(writer: &mut W, text: &[u8]) -> Result<(), WriteFault>
    ensures { Writes result (W.contents writer.old) (W.contents writer.new) (with_count text.now) }
{
    let count = Answer::Saved { lines: feeds(text) };
    write_bytes(writer, count.line().as_slice())?;
    write_bytes(writer, text)
}

impl<A: Allocator + Copy> Reply<A> {
    /// The response that the command is refused for this refusal or fault.
    pub(crate) fn refused<N: Named>(why: &N) -> Reply<A>
        ensures { reply_text result ≡ refused (N.name why.now) }
    {
        Reply::Line(Answer::refused(why))
    }

    /// Writes the response. Device where the writer returns an error or takes no byte.
    pub(crate) fn write<W: Write>(&self, writer: &mut W) -> Result<(), WriteFault>
        ensures { Writes result (W.contents writer.old) (W.contents writer.new) (reply_text self.now) }
    {
        match self {
            Reply::Nothing => Ok(()),
            Reply::Line(answer) => write_bytes(writer, answer.line().as_slice()),
            Reply::Report(text) => write_bytes(writer, text.as_slice()),
            Reply::Saved(text) => write_saved(writer, text.as_slice()),
        }
    }
}
