ghost use Rattle.std.specs.Prelude.{◌≡◌};
ghost use Rattle.std.specs.Iterator.{YieldsFirstRef, item_count};

use crate::runner::Runner;
use blocks::Items;
use scenarios::Placed;
use std::alloc::Allocator;
use std::marker::Model;

/// Running jobs with their starts, rising by the second by which they have surely ended (start plus
/// estimate), and of one second by number.
#[derive(Drop)]
pub struct RunningByEnd<'a, A: Allocator + Copy> {
    runners: Items<'a, Runner, A>,
}

impl<'a, A: Allocator + Copy> Model for RunningByEnd<'a, A> {
    ghost use Rattle.std.specs.Prelude.{List};
    ghost use Rattle.scenarios.specs.declared.placed.Placed.{Placed};

    ghost Value = { List Placed };

    ghost view = { λ r. r.runners };
}

impl<'a, A: Allocator + Copy> RunningByEnd<'a, A> {
    pub(crate) fn of(runners: Items<'a, Runner, A>) -> RunningByEnd<'a, A>
        ensures { result ≡ runners.entry }
    {
        RunningByEnd { runners }
    }
}

impl<'a, A: Allocator + Copy> Iterator for RunningByEnd<'a, A> {
    type Item = &'a Placed;

    ghost next_gives = { YieldsFirstRef (λ r. r) };

    ghost remaining = { item_count (λ r. r) };

    fn next(&mut self) -> Option<&'a Placed> {
        let runner = self.runners.next()?;
        Some(&runner.placed)
    }
}
