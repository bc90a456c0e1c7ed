ghost use Rattle.std.specs.Prelude.{◌≡◌};

use easy_rule::Start;
use std::alloc::Allocator;
use std::marker::Model;

/// An event second that was worked, with its starts.
#[derive(Drop)]
pub struct Stepped<A: Allocator + Copy> {
    second: u64,
    starts: Vec<Start, A>,
}

impl<A: Allocator + Copy> Model for Stepped<A> {
    ghost use Rattle.event_loop.specs.Stepped.{SteppedSecond};

    ghost Value = { SteppedSecond };

    ghost view = { λ s. record { second = s.second; starts = s.starts.items } };
}

impl<A: Allocator + Copy> Stepped<A> {
    pub(crate) fn new(second: u64, starts: Vec<Start, A>) -> Stepped<A>
        ensures { result ≡ record { second = second; starts = starts.items } }
    {
        Stepped { second, starts }
    }

    /// The second.
    pub fn second(&self) -> u64
        ensures { result ≡ self.now.second }
    {
        self.second
    }

    /// The starts at it, in order.
    pub fn starts(&self) -> &[Start]
        ensures { result.now ≡ self.now.starts }
    {
        self.starts.as_slice()
    }
}
