// A leaf has as many places as there may be corners. Where the corners of two nodes are too many, sizes that agree in
// their leading bits share one. Such a class is one of the level below or a union of some, so bounds fall from level
// to level only where sizes range wider, and never below their class.
ghost use Rattle.std.specs.Prelude.{◌≡◌, ◌⊎◌, ◌↔◌, ℕ, ◌≤◌, ◌<◌, IfSome, IsTrue, MatchOption, IsFalse};
ghost use Rattle.waiting_places.specs.Bounds.{AreAsLong, AreBelow, IsBelow, IsPlace, Keeps, MayFit, corner_at};

use crate::corner::{Corner, are_alike, class_bits};
use crate::offer::Offer;
use crate::waits::Waits;
use std::marker::Model;

/// How many corners a frontier has at most.
const CORNERS: usize = 64;

/// All bits of a size.
const ALL_BITS: u32 = 32;

/// What is known of those below a node, a lower bound on their Pareto frontier: each of them is at least as large and
/// at least as long as one of its corners. These stand by size. It is stale once one has left the leaf, or what is below
/// the node has been made anew and has changed.
#[derive(Clone, Copy)]
pub(crate) struct Frontier {
    stale: bool,
    len: usize,
    corners: [Corner; CORNERS],
}

impl Model for Frontier {
    ghost use Rattle.waiting_places.specs.Bounds.{FrontierView, IsFrontier};

    ghost Value = { FrontierView };

    ghost view = { λ f. record { stale = f.stale; len = f.len; corners = f.corners } };

    ghost inverse = { λ v. record { stale = v.stale; len = v.len; corners = v.corners } };

    ghost invariant = { λ f. IsFrontier f.len f.corners };
}

/// Whether the next corner by size is one of `a`, once `i` of `a` and `j` of `b` have come.
fn comes_first(a: &Frontier, i: usize, b: &Frontier, j: usize) -> bool
    requires { i < a.now.len ⊎ j < b.now.len }
    ensures first { IsTrue result → (i < a.now.len) × (j < b.now.len → (corner_at a.now i).size ≤ (corner_at b.now j).size) }
    ensures second { IsFalse result → (j < b.now.len) × (i < a.now.len → (corner_at b.now j).size ≤ (corner_at a.now i).size) }
{
    if i >= a.len {
        return false;
    }
    j >= b.len || a.corners[i].size <= b.corners[j].size
}

impl Frontier {
    pub(crate) fn new() -> Frontier
        ensures { result.len ≡ 0 }
    {
        let corner = Corner {
            size: 0,
            estimate: 0,
        };
        Frontier {
            stale: false,
            len: 0,
            corners: [corner; CORNERS],
        }
    }

    pub(crate) fn is_stale(&self) -> bool {
        self.stale
    }

    pub(crate) fn has_same_corners(&self, other: &Frontier) -> bool {
        for at in 0..self.len {
            let (corner, old) = (self.corners[at], other.corners[at]);
            if corner.size != old.size || corner.estimate != old.estimate {
                return false;
            }
        }
        self.len == other.len
    }

    /// One has left the leaf, or what is below the node has changed.
    pub(crate) fn set_stale(&mut self)
        ensures { Keeps self.old self.new }
    {
        self.stale = true;
    }

    /// Whether a corner fits the offer: where none does, nobody below fits it.
    pub(crate) fn may_fit(&self, offer: &Offer) -> bool
        ensures { IsTrue result ↔ MayFit offer.now self.now }
    {
        for at in 0..self.len {
            let corner = self.corners[at];
            if u64::from(corner.size) <= offer.extra {
                return true;
            }
            if u64::from(corner.size) > offer.free {
                return false;
            }
            if u64::from(corner.estimate) <= offer.window {
                return true;
            }
        }
        false
    }

    /// Behind how many corners one stands by size; None where one that is looked at is as small and as short. These are
    /// 0, 2, 6, 14 and so on first: most who come are above one of the smallest.
    fn place_of(&self, corner: &Corner) -> Option<usize>
        ensures { MatchOption result (IsBelow self.now corner.now.size corner.now.estimate) (λ at. IsPlace self.now corner.now.size at) }
    {
        let mut low = 0;
        let mut high = self.len;
        while low < high {
            let at = (2 * low).min((low + high) / 2);
            let here = self.corners[at];
            if here.is_below(corner) {
                return None;
            }
            if here.size < corner.size {
                low = at + 1;
            } else {
                high = at;
            }
        }
        Some(low)
    }

    /// The end of those from a place on that are as long as this one.
    fn end_of_longer(&self, corner: &Corner, from: usize) -> usize
        requires { from ≤ self.now.len }
        ensures { AreAsLong self.now corner.now.estimate from result }
    {
        let mut end = from;
        while end < self.len && self.corners[end].estimate >= corner.estimate {
            end += 1;
        }
        end
    }

    /// One comes to its place, and those up to `end`, which are as large and as long, leave. Where there is no capacity,
    /// which no leaf comes to, the one before it stands for both, or the first.
    fn insert_at(&mut self, corner: &Corner, at: usize, end: usize)
        requires place { IsPlace self.old corner.now.size at }
        requires longer { AreAsLong self.old corner.now.estimate at end }
        ensures kept { Keeps self.old self.new }
        ensures met { IsBelow self.new corner.now.size corner.now.estimate }
    {
        let len = self.len + 1 + at - end;
        if len > CORNERS {
            let before = at.saturating_sub(1);
            self.corners[before] = self.corners[before].least_of(corner);
            return;
        }
        self.corners.copy_within(end..self.len, at + 1);
        self.corners[at] = *corner;
        self.len = len;
    }

    /// One comes behind the last, which is no larger: not at all where it is no shorter, into the last one's corner where
    /// both are as large, or alike in so many bits. False where it had to share that one for lack of capacity.
    fn push(&mut self, corner: &Corner, bits: u32) -> bool
        requires { (k : ℕ) → k < self.old.len → (corner_at self.old k).size ≤ corner.now.size }
        ensures kept { Keeps self.old self.new }
        ensures met { IsBelow self.new corner.now.size corner.now.estimate }
        ensures last { (k : ℕ) → k < self.new.len → (corner_at self.new k).size ≤ corner.now.size }
    {
        let len = self.len;
        if len == 0 {
            self.corners[0] = *corner;
            self.len = 1;
            return true;
        }
        let last = self.corners[len - 1];
        if last.estimate <= corner.estimate {
            return true;
        }
        let shares = last.size == corner.size || are_alike(last.size, corner.size, bits);
        if shares || len == CORNERS {
            self.corners[len - 1].estimate = corner.estimate;
            return shares;
        }
        self.corners[len] = *corner;
        self.len = len + 1;
        true
    }

    fn add_corner(&mut self, corner: &Corner)
        ensures kept { Keeps self.old self.new }
        ensures met { IsBelow self.new corner.now.size corner.now.estimate }
    {
        if let Some(at) = self.place_of(corner) {
            let end = self.end_of_longer(corner, at);
            self.insert_at(corner, at, end);
        }
    }

    fn add<T: Waits>(&mut self, item: &T)
        ensures kept { Keeps self.old self.new }
        ensures met { IsBelow self.new (T.size item.now) (T.estimate item.now) }
    {
        self.add_corner(&Corner::of(item));
    }

    fn add_place<T: Waits>(&mut self, place: &Option<T>)
        ensures kept { Keeps self.old self.new }
        ensures met { IfSome place.now (λ item. IsBelow self.new (T.size item) (T.estimate item)) }
    {
        if let Some(item) = place {
            self.add(item);
        }
    }

    /// Makes it that of those who wait at these places.
    pub(crate) fn set<T: Waits>(&mut self, places: &[Option<T>])
        ensures { AreBelow T.size T.estimate self.new places.now }
    {
        self.len = 0;
        self.stale = false;
        for place in places {
            self.add_place(place);
        }
    }

    fn greatest_size(&self) -> u32 {
        self.corners[self.len.saturating_sub(1)].size
    }

    /// By how many bits of their sizes the corners of two are told apart where they are too many.
    fn bits_with(&self, other: &Frontier) -> u32
        ensures { result < 32 }
    {
        let least = self.corners[0].size.min(other.corners[0].size);
        class_bits(least, self.greatest_size().max(other.greatest_size()))
    }

    /// It comes to bound those too whom another one bounds.
    pub(crate) fn lower(&mut self, other: &Frontier)
        ensures kept { Keeps self.old self.new }
        ensures met { Keeps other.now self.new }
    {
        let own = *self;
        self.set_both(&own, other);
        self.stale = own.stale;
    }

    /// Makes it that of two.
    pub(crate) fn set_both(&mut self, a: &Frontier, b: &Frontier)
        ensures first { Keeps a.now self.new }
        ensures second { Keeps b.now self.new }
    {
        if !self.merge(a, b, ALL_BITS) {
            self.merge(a, b, a.bits_with(b));
        }
    }

    /// Makes it that of two, in which sizes alike in so many bits share a corner. False where sizes not alike had to share
    /// one; called with all bits it stops there.
    fn merge(&mut self, a: &Frontier, b: &Frontier, bits: u32) -> bool
        ensures first { IsTrue result ⊎ bits < 32 → Keeps a.now self.new }
        ensures second { IsTrue result ⊎ bits < 32 → Keeps b.now self.new }
    {
        self.len = 0;
        self.stale = false;
        let mut whole = true;
        let mut i = 0;
        for at in 0..a.len + b.len {
            if !whole && bits >= ALL_BITS {
                return false;
            }
            let j = at - i;
            if comes_first(a, i, b, j) {
                whole &= self.push(&a.corners[i], bits);
                i += 1;
            } else {
                whole &= self.push(&b.corners[j], bits);
            }
        }
        whole
    }
}
