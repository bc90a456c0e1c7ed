// A conversation whose writer may hold back what it is not asked to flush.
use crate::fuzz::works::TEN;
use checking::FOUR;
use easybook::{ProgramFault, run_live};
use std::io;
use std::io::{Cursor, Write};
use std::marker::Sync;
use std::thread::Threads;

/// Three commands, and one behind `quit`.
const COMMANDS: &[u8] = b"version\nremove 4\nquit\nversion\n";

/// What they are answered.
const ANSWERS: &[u8] = b"version 0\nversion 1\nbye\n";

/// How much of it is given when the writer is flushed behind each answer: 10 bytes, 10 more, and 4.
const FLUSHED: [usize; 3] = [10, 20, 24];

/// A writer that keeps what it is given, and notes how much that is at each flush.
#[derive(Drop)]
struct Holding {
    given: Vec<u8>,
    flushed: Vec<usize>,
}

impl Write for Holding {
    fn write(&mut self, buf: &[u8]) -> io::Result<usize> {
        self.given.extend_from_slice(buf)?;
        Ok(buf.len())
    }

    fn flush(&mut self) -> io::Result<()> {
        self.flushed.push(self.given.len())?;
        Ok(())
    }
}

fn talk<R: AllocGlobal + Threads + Sync>(rt: &R, writer: &mut Holding) -> Result<(), ProgramFault> {
    let log = Vec::from_slice(rt.alloc(), FOUR)?;
    run_live(rt, rt.alloc(), log, Cursor::new(COMMANDS), writer, TEN)
}

pub(crate) fn is_flushed<R: AllocGlobal + Threads + Sync>(rt: &R) -> bool {
    let mut writer = Holding {
        given: Vec::new(rt.alloc()),
        flushed: Vec::new(rt.alloc()),
    };
    talk(rt, &mut writer) == Ok(())
        && writer.given.as_slice() == ANSWERS
        && writer.flushed.as_slice() == FLUSHED.as_slice()
}
