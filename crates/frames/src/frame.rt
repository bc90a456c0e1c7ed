ghost use Rattle.std.specs.Prelude.{◌≡◌, ◌↔◌, ℕ, ◌≤◌, [], IfOk, IsTrue, OnErr, OnOk, count_by, length, nat_eq};
ghost use Rattle.frames.specs.Frames.{by_key, standing_at, stands};

use crate::keyed::Keyed;
use crate::standing::Standing;
use crate::stretch::Stretch;
use std::alloc::Allocator;
use std::marker::Model;
use swf_text::Memory;

/// Lists that stand at neighbouring places, seen as the list of stretches: each item once, with the
/// places at which it stands. At each place stands a list of its own, in the order of the stretches.
#[derive(Drop)]
pub struct Frame<T: Copy, A: Allocator + Copy> {
    stretches: Vec<Stretch<T>, A>,
}

impl<T: Copy, A: Allocator + Copy> Model for Frame<T, A> {
    ghost use Rattle.std.specs.Prelude.{List};
    ghost use Rattle.frames.specs.declared.stretch.Stretch.{Stretch};

    ghost Value = { List (Stretch T) };

    ghost view = { λ f. f.stretches.items };
}

impl<T: Copy, A: Allocator + Copy> Frame<T, A> {
    /// The frame of these stretches. It takes no memory.
    pub fn of(stretches: Vec<Stretch<T>, A>) -> Frame<T, A>
        ensures { result ≡ stretches.items }
    {
        Frame { stretches }
    }

    /// The frame of one list, which stands at place 0; nothing stands elsewhere. Memory where a growth
    /// was refused.
    pub fn single(alloc: A, items: &[T]) -> Result<Frame<T, A>, Memory>
        ensures first { IfOk result (λ frame. standing_at 0 frame ≡ items.now) }
        ensures others { IfOk result (λ frame. (place : ℕ) → 1 ≤ place → standing_at place frame ≡ []) }
    {
        let mut stretches = Vec::with_capacity(alloc, items.len())?;
        for item in items {
            stretches.push(Stretch::once(*item))?;
        }
        Ok(Frame::of(stretches))
    }

    /// The items that stand at a place, in order.
    pub fn at(&self, place: u32) -> Standing<'_, T>
        ensures { result ≡ standing_at place self.now }
    {
        Standing::of(self.stretches.as_slice(), place)
    }

    /// How many stand at a place.
    #[tactic(auto, using(crate::proofs::Splits::counted))]
    pub fn count(&self, place: u32) -> usize
        ensures { result ≡ length (standing_at place self.now) }
    {
        count_at(self.stretches.as_slice(), place)
    }
}

impl<T: Keyed, A: Allocator + Copy> Frame<T, A> {
    /// Whether an item of this key stands at a place; it stops at the first.
    pub fn holds(&self, place: u32, key: u64) -> bool
        ensures { IsTrue result ↔ (1 ≤ count_by (λ item. nat_eq (T.key item) key) (standing_at place self.now)) }
    {
        holds_key(self.stretches.as_slice(), place, key)
    }

    /// Puts the lists of all places in the order of the keys; those of one key stay as they stand.
    ///
    /// Memory where a growth was refused; then nothing has changed.
    pub fn sort_by_key(&mut self) -> Result<(), Memory>
        ensures ok { OnOk result ((place : ℕ) → standing_at place self.new ≡ by_key T.key (standing_at place self.old)) }
        ensures err { OnErr result (self.new ≡ self.old) }
    {
        self.stretches.sort_by_key(|stretch| stretch.item.key())?;
        Ok(())
    }
}

fn count_at<T: Copy>(stretches: &[Stretch<T>], place: u32) -> usize
    ensures { result ≡ count_by (stands place) stretches.now }
{
    stretches.iter().filter(|s| s.stands(place)).count()
}

#[tactic(auto, using(crate::proofs::Splits::one_there, crate::proofs::Splits::none_here))]
fn holds_key<T: Keyed>(stretches: &[Stretch<T>], place: u32, key: u64) -> bool
    ensures { IsTrue result ↔ (1 ≤ count_by (λ item. nat_eq (T.key item) key) (standing_at place stretches.now)) }
{
    for item in Standing::of(stretches, place) {
        if item.key() == key {
            return true;
        }
    }
    false
}
