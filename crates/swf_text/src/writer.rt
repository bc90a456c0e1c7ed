ghost use Rattle.std.specs.Prelude.{◌≡◌, ◌+◌, OnOk};
ghost use Rattle.std.specs.List.{AllByRecursion};
ghost use Rattle.swf_text.specs.Entry.{AreFields, HasFields};
ghost use Rattle.swf_text.specs.Text.{lines};
ghost use Rattle.swf_text.specs.Grammar.{IsText};
ghost use Rattle.swf_text.specs.Comment.{IsComment};
ghost use Rattle.swf_text.specs.Writing.{Writes, line_text, comment_text, entry_text, text_bytes};

use crate::entry::Entry;
use crate::fault::WriteFault;
use crate::line::Fields;
use crate::spelling::{push_all, spell};
use crate::text::SwfText;
use arrayvec::ArrayVec;
use std::alloc::Allocator;
use std::io::Write;

/// Capacity for a line: eighteen spellings, the spaces between and the line feed.
const LINE_CAPACITY: usize = 528;

fn line_text(fields: &Fields) -> ArrayVec<u8, LINE_CAPACITY>
    ensures text { result.items ≡ line_text fields.now.0 }
    ensures fields { AreFields fields.now.0 }
{
    let mut text = ArrayVec::new();
    let (first, others) = fields.0.split_at(1);
    push_all(&mut text, spell(&first[0]).as_slice());
    for value in others {
        text.push(b' ');
        push_all(&mut text, spell(value).as_slice());
    }
    text.push(b'\n');
    text
}

/// Writes all of the bytes, by one `write` after another. Device where the writer answers an
/// error, or takes no byte; what was written then is a prefix of the bytes. Takes no memory.
pub fn write_bytes<W: Write>(writer: &mut W, bytes: &[u8]) -> Result<(), WriteFault>
    ensures { Writes result (W.contents writer.old) (W.contents writer.new) bytes.now }
{
    let mut written = 0;
    while written < bytes.len() {
        match writer.write(&bytes[written..]) {
            Ok(0) => return Err(WriteFault::Device),
            Ok(count) => written += count,
            Err(_) => return Err(WriteFault::Device),
        }
    }
    Ok(())
}

fn write_comment<W: Write>(writer: &mut W, comment: &[u8]) -> Result<(), WriteFault>
    ensures { Writes result (W.contents writer.old) (W.contents writer.new) (comment_text comment.now) }
{
    write_bytes(writer, comment)?;
    write_bytes(writer, b"\n")
}

fn write_entry<W: Write, A: Allocator + Copy>(
    writer: &mut W,
    entry: &Entry<A>,
) -> Result<(), WriteFault>
    ensures text { Writes result (W.contents writer.old) (W.contents writer.new) (entry_text entry.now) }
    ensures fields { OnOk result (HasFields entry.now) }
{
    write_bytes(writer, line_text(&entry.main()).as_slice())?;
    for part in entry.parts() {
        write_bytes(writer, line_text(part).as_slice())?;
    }
    Ok(())
}

/// Writes a log in its canonical text: all comments in order, then each entry, its summary line
/// and its partial lines, each line with its line feed and each number in its one spelling. Device
/// as in `write_bytes`; what was written then is a prefix of the text. Takes no memory.
///
/// Of comments that begin with `;`, hold no line feed, don't end with a carriage return and fit a
/// line, the text is read back as the same log.
pub fn write_swf<W: Write, A: Allocator + Copy>(
    text: &SwfText<A>,
    writer: &mut W,
) -> Result<(), WriteFault>
    ensures text { Writes result (W.contents writer.old) (W.contents writer.new) (text_bytes text.now) }
    ensures read_again { OnOk result (AllByRecursion IsComment text.now.comments → IsText (lines (text_bytes text.now)) text.now) }
{
    for comment in text.comments() {
        write_comment(writer, comment)?;
    }
    for entry in text.entries() {
        write_entry(writer, entry)?;
    }
    Ok(())
}
