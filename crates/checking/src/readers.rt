use std::io;
use std::io::{ErrorKind, Read};

/// Gives one byte a call. Once its calls are used up it fails, or is interrupted and then goes on.
#[derive(Drop)]
pub struct Dripping {
    rest: &'static [u8],
    calls: usize,
    goes_on: bool,
}

impl Dripping {
    /// A reader of these bytes, which fails at the call behind so many, or is interrupted by it.
    pub fn new(rest: &'static [u8], calls: usize, goes_on: bool) -> Dripping {
        Dripping {
            rest,
            calls,
            goes_on,
        }
    }

    fn next(&mut self) -> Option<u8> {
        let (byte, rest) = self.rest.split_first()?;
        self.rest = rest;
        Some(*byte)
    }
}

impl Read for Dripping {
    fn read(&mut self, buf: &mut [u8]) -> io::Result<usize> {
        if self.calls == 0 {
            if !self.goes_on {
                return Err(io::Error::from(ErrorKind::BrokenPipe));
            }
            self.calls = usize::MAX;
            return Err(io::Error::from(ErrorKind::Interrupted));
        }
        self.calls -= 1;
        let Some(place) = buf.first_mut() else {
            return Ok(0);
        };
        let Some(byte) = self.next() else {
            return Ok(0);
        };
        *place = byte;
        Ok(1)
    }
}
