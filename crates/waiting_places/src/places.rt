ghost use Rattle.std.specs.Prelude.{◌≡◌, ◌⊎◌, ◌↔◌, ℕ, ◌+◌, ◌-◌, ◌*◌, ◌^◌, ◌≤◌, ◌<◌, [], ◌∷◌, ◌++◌, IfOk, IfSome, IsOk, IsTrue, None, OnErr, OnOk, Some, drop, find, is_some, length, map, option_copied, slice_get, slice_set, take};
ghost use Rattle.std.specs.List.{remove};
ghost use Rattle.waiting_places.specs.Offers.{fits, holds};
ghost use Rattle.waiting_places.specs.Places.{IsFirst, IsHead, at_place, found_at, rank, waiting};

use crate::frontier::Frontier;
use crate::growth::{LIST_LIMIT, nodes_for};
use crate::offer::Offer;
use crate::refused::Refused;
use crate::search::{first_from, first_some};
use crate::tree::{SPAN, cover, outdate_leaf};
use crate::waiting::Waiting;
use crate::waits::Waits;
use std::alloc::Allocator;
use std::marker::Model;
use swf_text::Memory;

/// The most places that capacity is reserved for.
const PLACES_LIMIT: usize = 1 << 40;

/// Those who wait, each at a place of its own in order of arrival. Who leaves leaves its place empty, so
/// that it costs a step. Beside capacity for more than 128 places stands a tree, of 64 places to a leaf:
/// each node has a lower bound on the Pareto frontier of the sizes and estimates below it. A leaf comes to
/// the tree with one at the last of its places. One who leaves makes the leaf stale, and a stale node is
/// made anew by the next search that looks there and finds nobody; where it changes, the node above is
/// stale. And it is known of one offer from which place to which nobody fits it. Contracts see the places,
/// and how many more surely find capacity.
#[derive(Drop)]
pub struct Places<T: Waits, A: Allocator + Copy> {
    places: Vec<Option<T>, A>,
    nodes: Vec<Frontier, A>,
    len: usize,
    head: usize,
    refused: Refused,
}

impl<T: Waits, A: Allocator + Copy> Model for Places<T, A> {
    ghost use Rattle.std.specs.Prelude.{◌-◌, length, min, vec_capacity};
    ghost use Rattle.waiting_places.specs.Places.{IsPlaces, PlacesView, capacity_of};

    ghost Value = { PlacesView T };

    ghost view = { λ p. record { places = p.places.items; spare = min (vec_capacity p.places) (capacity_of (length p.nodes.items)) - length p.places.items } };

    ghost invariant = { λ p. IsPlaces T.size T.estimate p.places.items p.nodes.items p.len p.head (vec_capacity p.places) p.refused };
}

fn head_from<T: Waits>(places: &[Option<T>], from: usize) -> usize
    requires within { from ≤ length places.now }
    requires ahead { (place : ℕ) → place < from → at_place places.now place ≡ None }
    ensures { IsHead places.now result }
{
    first_some(places, from).unwrap_or(places.len())
}

fn place_before<T: Waits>(places: &[Option<T>], count: usize) -> usize
    requires { count ≤ length (waiting places.now) }
    ensures within { result ≤ length places.now }
    ensures behind { length (waiting (drop result places.now)) ≡ count }
{
    let mut place = places.len();
    let mut left = count;
    'places: while 0 < left {
        place -= 1;
        if places[place].is_some() {
            left -= 1;
        }
    }
    place
}

fn closed_up<T: Waits, A: Allocator + Copy>(
    alloc: A,
    places: &[Option<T>],
    capacity: usize,
) -> Result<Places<T, A>, Memory>
    requires few { capacity ≤ 2 ^ 40 }
    requires enough { length (waiting places.now) ≤ capacity }
    ensures places { IfOk result (λ closed. closed.places ≡ map (λ item. Some item) (waiting places.now)) }
    ensures spare { IfOk result (λ closed. capacity ≤ closed.spare + length (waiting places.now)) }
{
    let mut closed = Places::with_capacity(alloc, capacity)?;
    for item in Waiting::at(places) {
        closed.push(*item);
    }
    Ok(closed)
}

impl<T: Waits, A: Allocator + Copy> Places<T, A> {
    /// Nobody, and no places. It takes no memory.
    pub fn new(alloc: A) -> Places<T, A>
        ensures { result.places ≡ [] }
    {
        Places {
            places: Vec::new(alloc),
            nodes: Vec::new(alloc),
            len: 0,
            head: 0,
            refused: Refused::unknown(),
        }
    }

    fn with_capacity(alloc: A, capacity: usize) -> Result<Places<T, A>, Memory>
        requires { capacity ≤ 2 ^ 40 }
        ensures places { IfOk result (λ p. p.places ≡ []) }
        ensures spare { IfOk result (λ p. capacity ≤ p.spare) }
    {
        let nodes = nodes_for(alloc, capacity)?;
        Ok(Places {
            places: Vec::with_capacity(alloc, capacity)?,
            nodes,
            len: 0,
            head: 0,
            refused: Refused::unknown(),
        })
    }

    /// How many wait.
    pub fn len(&self) -> usize
        ensures { result ≡ length (waiting self.now.places) }
    {
        self.len
    }

    /// Whether nobody waits.
    pub fn is_empty(&self) -> bool
        ensures { IsTrue result ↔ (waiting self.now.places ≡ []) }
    {
        self.len == 0
    }

    /// How many more surely find capacity.
    pub fn spare(&self) -> usize
        ensures { result ≡ self.now.spare }
    {
        let capacity = LIST_LIMIT.max(SPAN / 2 * self.nodes.len());
        self.places.capacity().min(capacity) - self.places.len()
    }

    /// Reserves capacity for so many more. Where there is none, those who wait move to the first places,
    /// in order; where there is, it takes no memory and nobody moves.
    ///
    /// Memory where a growth was refused, or where twice those who wait and these are more than 2^40; then
    /// nothing has changed.
    pub fn reserve(&mut self, count: usize) -> Result<(), Memory>
        ensures waiting { waiting self.new.places ≡ waiting self.old.places }
        ensures places { (self.new.places ≡ self.old.places) ⊎ (self.new.places ≡ map (λ item. Some item) (waiting self.old.places)) }
        ensures ok { OnOk result (count ≤ self.new.spare) }
        ensures err { OnErr result (self.new ≡ self.old) }
        ensures capacity { count ≤ self.old.spare → IsOk result × (self.new ≡ self.old) }
    {
        if count <= self.spare() {
            return Ok(());
        }
        let capacity = (2 * self.len).saturating_add(count).max(SPAN);
        if capacity > PLACES_LIMIT {
            return Err(Memory);
        }
        let closed = closed_up(*self.places.allocator(), self.places.as_slice(), capacity)?;
        *self = closed;
        Ok(())
    }

    /// One comes to the next place, where there is capacity; the place.
    pub fn push(&mut self, item: T) -> usize
        requires { 1 ≤ self.old.spare }
        ensures place { result ≡ length self.old.places }
        ensures places { self.new.places ≡ self.old.places ++ Some item ∷ [] }
        ensures spare { self.old.spare ≤ self.new.spare + 1 }
    {
        let place = self.places.len();
        let Ok(()) = self.places.push(Some(item)) else {
            unreachable!()
        };
        self.len += 1;
        cover(&mut self.nodes, self.places.as_slice());
        place
    }

    /// Who waits at a place leaves it empty; None where nobody does. It costs a step and, where the first
    /// leaves, one for each empty place up to the next who waits.
    pub fn take(&mut self, place: usize) -> Option<T>
        ensures item { result ≡ at_place self.old.places place }
        ensures places { self.new.places ≡ slice_set self.old.places place None }
        ensures waiting { IfSome result (λ _. waiting self.new.places ≡ remove (waiting self.old.places) (rank self.old.places place)) }
        ensures spare { self.new.spare ≡ self.old.spare }
        ensures few { IfSome result (λ _. place < 2 ^ 46) }
    {
        let item = *self.get(place)?;
        self.places[place] = None;
        outdate_leaf(&mut self.nodes, place);
        self.len -= 1;
        self.head = head_from(self.places.as_slice(), self.head);
        Some(item)
    }

    /// Who waits at a place; None where nobody does.
    pub fn get(&self, place: usize) -> Option<&T>
        ensures { option_copied result ≡ at_place self.now.places place }
    {
        self.places.get(place)?.as_ref()
    }

    /// The place of the first who waits; None where nobody does. It costs a step.
    pub fn first(&self) -> Option<usize>
        ensures place { IsFirst is_some self.now.places 0 (length self.now.places) result }
        ensures item { found_at self.now.places result ≡ slice_get (waiting self.now.places) 0 }
    {
        if self.head < self.places.len() {
            Some(self.head)
        } else {
            None
        }
    }

    // What a search found out is remembered where it is more places than the search was spared.
    fn remember(&mut self, from: usize, known: usize, offer: &Offer, found: Option<usize>)
        requires { IsFirst (holds (fits T.size T.estimate offer.now)) self.old.places from (length self.old.places) found }
        ensures { self.new ≡ self.old }
    {
        let to = found.unwrap_or(self.places.len());
        if to.saturating_sub(known) <= known.saturating_sub(from) {
            return;
        }
        self.refused = Refused {
            from,
            to,
            offer: *offer,
        };
    }

    fn search(&mut self, from: usize, offer: &Offer) -> Option<usize>
        ensures place { IsFirst (holds (fits T.size T.estimate offer.now)) self.old.places from (length self.old.places) result }
        ensures same { self.new ≡ self.old }
    {
        let known = self.refused.behind(from, offer);
        let found = first_from(&mut self.nodes, self.places.as_slice(), known, offer);
        self.remember(from, known, offer, found);
        found
    }

    /// The first place from one on where one waits who fits the offer; None where none does. What it
    /// learns of those who wait it keeps for later searches.
    #[tactic(auto, using(crate::proofs::Found::found_fit))]
    pub fn first_fit(&mut self, from: usize, offer: &Offer) -> Option<usize>
        ensures place { IsFirst (holds (fits T.size T.estimate offer.now)) self.old.places from (length self.old.places) result }
        ensures item { found_at self.old.places result ≡ find (fits T.size T.estimate offer.now) (waiting (drop from self.old.places)) }
        ensures same { self.new ≡ self.old }
    {
        self.search(from.max(self.head), offer)
    }

    /// Those who wait, in order.
    pub fn iter(&self) -> Waiting<'_, T>
        ensures { result ≡ waiting self.now.places }
    {
        Waiting::at(&self.places[self.head..])
    }

    /// The places, in order.
    pub fn as_slice(&self) -> &[Option<T>]
        ensures { result.now ≡ self.now.places }
    {
        self.places.as_slice()
    }

    /// The place from which on all wait but so many first ones. It costs a step for each place from there
    /// on.
    pub fn place_behind(&self, count: usize) -> usize
        requires { count ≤ length (waiting self.now.places) }
        ensures within { result ≤ length self.now.places }
        ensures front { waiting (take result self.now.places) ≡ take count (waiting self.now.places) }
        ensures rest { waiting (drop result self.now.places) ≡ drop count (waiting self.now.places) }
    {
        place_before(self.places.as_slice(), self.len - count)
    }

    /// Those who wait but for so many first ones, in order. It costs a step for each place from theirs
    /// on.
    pub fn iter_behind(&self, count: usize) -> Waiting<'_, T>
        ensures { result ≡ drop count (waiting self.now.places) }
    {
        let place = self.place_behind(count.min(self.len));
        Waiting::at(&self.places[place..])
    }

    /// The allocator that the places are kept on.
    pub fn allocator(&self) -> A {
        *self.places.allocator()
    }
}
