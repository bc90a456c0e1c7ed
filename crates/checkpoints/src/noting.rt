//! Starts that are noted one after another, and are then looked up by number.
ghost use Rattle.std.specs.Prelude.{◌≡◌, ℕ, ◌<◌, ◌≤◌, ◌++◌, ◌∷◌, ◌-◌, [], None, IfOk, OnErr, OnOk, length, map, replicate};
ghost use Rattle.std.specs.Option.{option_or};
ghost use Rattle.easy_rule.specs.Pass.{start_at};
ghost use Rattle.easy_rule.specs.Simulation.{start_of};
ghost use Rattle.checkpoints.specs.Starts.{known_start};

use crate::starts::{Starts, place_of};
use easy_rule::Start;
use scenarios::Job;
use std::alloc::Allocator;
use std::marker::Model;
use swf_text::Memory;

/// So many places are made at once.
pub(crate) const STEP: usize = 1_024;

/// Starts that are noted. Of the numbers from the least on, the first `most` may have places, which are
/// made up to the greatest of them that was noted; the starts of other numbers stand in a list.
#[derive(Drop)]
pub(crate) struct Noting<A: Allocator + Copy> {
    least: u64,
    most: usize,
    places: Vec<Option<u64>, A>,
    others: Vec<Start, A>,
}

impl<A: Allocator + Copy> Model for Noting<A> {
    ghost use Rattle.std.specs.Prelude.{◌≤◌, length};
    ghost use Rattle.checkpoints.specs.Starts.{AreApart, KnownStarts};

    ghost Value = { KnownStarts };

    ghost view = { λ s. record { least = s.least; places = s.places.items; others = s.others.items } };

    ghost invariant = { λ s. (length s.places.items ≤ s.most) × AreApart s.least s.most s.others.items };
}

fn reach<A: Allocator + Copy>(
    places: &mut Vec<Option<u64>, A>,
    place: usize,
    most: usize,
) -> Result<(), Memory>
    requires place { place < most }
    requires within { length places.old.items ≤ most }
    ensures there { OnOk result (place < length places.new.items) }
    ensures within { length places.new.items ≤ most }
    ensures made { OnOk result (places.new.items ≡ places.old.items ++ replicate (length places.new.items - length places.old.items) None) }
    ensures kept { OnErr result (places.new.items ≡ places.old.items) }
{
    if place < places.len() {
        return Ok(());
    }
    places.resize(place.saturating_add(STEP).min(most), None)?;
    Ok(())
}

impl<A: Allocator + Copy> Noting<A> {
    // There is capacity for `first` places.
    pub(crate) fn new(alloc: A, least: u64, most: usize, first: usize) -> Result<Noting<A>, Memory>
        ensures { IfOk result (λ noting. (n : ℕ) → known_start noting n ≡ None) }
    {
        let places = Vec::with_capacity(alloc, first)?;
        Ok(Noting {
            least,
            most,
            places,
            others: Vec::new(alloc),
        })
    }

    fn note(&mut self, start: Start) -> Result<(), Memory>
        ensures { OnOk result ((n : ℕ) → known_start self.new n ≡ option_or (known_start self.old n) (start_of (start ∷ []) n)) }
    {
        let Some(place) = place_of(self.least, self.most, start.number) else {
            self.others.push(start)?;
            return Ok(());
        };
        reach(&mut self.places, place, self.most)?;
        self.places[place] = self.places[place].or(Some(start.at));
        Ok(())
    }

    pub(crate) fn note_all(&mut self, starts: &[Start]) -> Result<(), Memory>
        ensures { OnOk result ((n : ℕ) → known_start self.new n ≡ option_or (known_start self.old n) (start_of starts.now n)) }
    {
        for start in starts {
            self.note(*start)?;
        }
        Ok(())
    }

    pub(crate) fn note_jobs(&mut self, jobs: &[Job], second: u64) -> Result<(), Memory>
        ensures { OnOk result ((n : ℕ) → known_start self.new n ≡ option_or (known_start self.old n) (start_of (map (start_at second) jobs.now) n)) }
    {
        for job in jobs {
            self.note(Start {
                number: job.number(),
                at: second,
            })?;
        }
        Ok(())
    }

    pub(crate) fn finish(self) -> Result<Starts<A>, Memory>
        ensures { IfOk result (λ starts. (n : ℕ) → known_start starts n ≡ known_start self n) }
    {
        let Noting {
            least,
            places,
            others,
            ..
        } = self;
        Starts::new(least, places, others)
    }
}
