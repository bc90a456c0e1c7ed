ghost use Rattle.swf_text.specs.Entry.{number_of_entry, submit_of};

use crate::copied::{Copied, Keyed};
use std::alloc::Allocator;
use swf_text::{Entry, Memory};

/// A job number, and the second in which that job was submitted.
#[derive(Clone, Copy, Drop)]
pub struct Numbered {
    pub number: u64,
    pub submit: u64,
}

impl Copied for Numbered {
    fn copied(&self) -> Result<Numbered, Memory> {
        Ok(*self)
    }
}

impl Keyed for Numbered {
    ghost major = { λ pair. pair.number };

    ghost minor = { λ pair. pair.number };

    fn major(&self) -> u64 {
        self.number
    }

    fn minor(&self) -> u64 {
        self.number
    }
}

impl<A: Allocator + Copy> Copied for Entry<A> {
    fn copied(&self) -> Result<Entry<A>, Memory> {
        self.copy()
    }
}

impl<A: Allocator + Copy> Keyed for Entry<A> {
    ghost major = { submit_of };

    ghost minor = { number_of_entry };

    fn major(&self) -> u64 {
        self.submit()
    }

    fn minor(&self) -> u64 {
        self.number()
    }
}
