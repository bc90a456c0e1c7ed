ghost use Rattle.std.specs.Prelude.{◌≡◌, [], ◌∷◌, MatchOption};
ghost use Rattle.std.specs.Iterator.{YieldsFirstRef, item_count};
ghost use Rattle.waiting_places.specs.Places.{waiting};

use crate::search::first_some;
use crate::waits::Waits;
use std::marker::Model;

/// Those who wait, in order.
#[derive(Drop)]
pub struct Waiting<'a, T: Waits> {
    places: &'a [Option<T>],
}

impl<'a, T: Waits> Model for Waiting<'a, T> {
    ghost use Rattle.std.specs.Prelude.{List};
    ghost use Rattle.waiting_places.specs.Places.{waiting};

    ghost Value = { List T };

    ghost view = { λ w. waiting w.places.now };
}

fn split<'a, T: Waits>(places: &'a [Option<T>]) -> Option<(&'a T, &'a [Option<T>])>
    ensures { MatchOption result (waiting places.now ≡ []) (λ found. waiting places.now ≡ found.0.now ∷ waiting found.1.now) }
{
    let place = first_some(places, 0)?;
    let Some(item) = &places[place] else {
        unreachable!()
    };
    Some((item, &places[place + 1..]))
}

impl<'a, T: Waits> Waiting<'a, T> {
    pub(crate) fn at(places: &'a [Option<T>]) -> Waiting<'a, T>
        ensures { result ≡ waiting places.now }
    {
        Waiting { places }
    }
}

impl<'a, T: Waits> Iterator for Waiting<'a, T> {
    type Item = &'a T;

    ghost next_gives = { YieldsFirstRef (λ w. w) };

    ghost remaining = { item_count (λ w. w) };

    fn next(&mut self) -> Option<&'a T> {
        let (item, rest) = split(self.places)?;
        self.places = rest;
        Some(item)
    }
}
