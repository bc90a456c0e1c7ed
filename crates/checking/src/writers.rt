use std::alloc::Global;
use std::io;
use std::io::{ErrorKind, Write};

/// Takes a few bytes a call. Once its calls are used up it fails, or takes nothing.
#[derive(Drop)]
pub struct Filling {
    taken: Vec<u8>,
    most: usize,
    calls: usize,
    takes_none: bool,
}

impl Filling {
    /// A writer that takes at most so many bytes a call, so many calls long.
    pub fn new(alloc: Global, most: usize, calls: usize, takes_none: bool) -> Filling {
        Filling {
            taken: Vec::new(alloc),
            most,
            calls,
            takes_none,
        }
    }

    /// Whether it took a beginning of a text up to where it failed: all of it exactly where this call
    /// of its user ended well.
    pub fn took(&self, text: &[u8], ended_well: bool) -> bool {
        let taken = self.taken.as_slice();
        text.starts_with(taken)
            && ended_well == (taken.len() == text.len())
            && (ended_well || self.calls == 0)
    }
}

impl Write for Filling {
    fn write(&mut self, buf: &[u8]) -> io::Result<usize> {
        if self.calls == 0 {
            if self.takes_none {
                return Ok(0);
            }
            return Err(io::Error::from(ErrorKind::BrokenPipe));
        }
        self.calls -= 1;
        let count = buf.len().min(self.most);
        self.taken.extend_from_slice(&buf[..count])?;
        Ok(count)
    }

    fn flush(&mut self) -> io::Result<()> {
        Ok(())
    }
}
