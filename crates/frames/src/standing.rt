ghost use Rattle.std.specs.Prelude.{◌≡◌, [], ◌∷◌, MatchOption};
ghost use Rattle.std.specs.Iterator.{YieldsFirstRef, item_count};
ghost use Rattle.frames.specs.Frames.{standing_at};

use crate::stretch::Stretch;
use std::marker::Model;

/// The items that stand at a place of a frame, in order.
#[derive(Drop)]
pub struct Standing<'a, T: Copy> {
    stretches: &'a [Stretch<T>],
    place: u32,
}

impl<'a, T: Copy> Model for Standing<'a, T> {
    ghost use Rattle.std.specs.Prelude.{List};
    ghost use Rattle.frames.specs.Frames.{standing_at};

    ghost Value = { List T };

    ghost view = { λ s. standing_at s.place s.stretches.now };
}

#[tactic(auto, using(crate::proofs::Splits::here, crate::proofs::Splits::elsewhere))]
fn split<'a, T: Copy>(stretches: &'a [Stretch<T>], place: u32) -> Option<(&'a T, &'a [Stretch<T>])>
    ensures { MatchOption result (standing_at place stretches.now ≡ []) (λ found. standing_at place stretches.now ≡ found.0.now ∷ standing_at place found.1.now) }
{
    let mut rest = stretches;
    while let Some((first, behind)) = rest.split_first() {
        if first.stands(place) {
            return Some((&first.item, behind));
        }
        rest = behind;
    }
    None
}

impl<'a, T: Copy> Standing<'a, T> {
    pub(crate) fn of(stretches: &'a [Stretch<T>], place: u32) -> Standing<'a, T>
        ensures { result ≡ standing_at place stretches.now }
    {
        Standing { stretches, place }
    }
}

impl<'a, T: Copy> Iterator for Standing<'a, T> {
    type Item = &'a T;

    ghost next_gives = { YieldsFirstRef (λ s. s) };

    ghost remaining = { item_count (λ s. s) };

    fn next(&mut self) -> Option<&'a T> {
        let (item, behind) = split(self.stretches, self.place)?;
        self.stretches = behind;
        Some(item)
    }
}
