// All items may weigh more than `least`: an insertion lowers it at once, a removal leaves it, and a search
// that found nothing raises it. `last` is the first number of the last item, so that a search over blocks
// reads hardly any items.
ghost use Rattle.std.specs.Prelude.{◌≡◌, ◌≤◌, ◌<◌, ◌+◌, ◌++◌, ◌^◌, [], All, IfOk, length, sum_by, take, drop, slice_index_or, vec_capacity};
ghost use Rattle.std.specs.List.{insert, remove};
ghost use Rattle.blocks.specs.Light.{IsFirstLight};
ghost use Rattle.blocks.specs.Rows.{EndsAt, ends_by, stands};

use crate::ranked::Ranked;
use std::alloc::Allocator;
use std::marker::Model;
use swf_text::Memory;

/// The most items of a block.
pub(crate) const BLOCK_LIMIT: usize = 128;

/// How many of a full block's items stay in it when it is cut.
pub(crate) const BLOCK_HALF: usize = 64;

/// Up to 128 items, which have their capacity, and what they weigh together.
#[derive(Drop)]
pub(crate) struct Block<T: Ranked, A: Allocator + Copy> {
    items: Vec<T, A>,
    least: u64,
    weight: u128,
    last: u128,
}

impl<T: Ranked, A: Allocator + Copy> Model for Block<T, A> {
    ghost use Rattle.std.specs.Prelude.{List, vec_capacity};
    ghost use Rattle.blocks.specs.Rows.{EndsAt, IsBlock};

    ghost Value = { List T };

    ghost view = { λ b. b.items.items };

    ghost invariant = { λ b. IsBlock T.weight b.weight b.least (vec_capacity b.items) b.items.items × EndsAt T.major b.last b.items.items };
}

fn weight_of<T: Ranked>(items: &[T]) -> u128
    requires { sum_by T.weight items.now < 2 ^ 128 }
    ensures { result ≡ sum_by T.weight items.now }
{
    items.iter().map(|item| u128::from(item.weight())).sum()
}

fn least_of<T: Ranked>(items: &[T]) -> u64
    ensures { All (λ x. result ≤ T.weight x) items.now }
{
    let mut least = u64::MAX;
    for item in items {
        least = least.min(item.weight());
    }
    least
}

#[inline]
fn last_of<T: Ranked>(items: &[T]) -> u128
    ensures { EndsAt T.major result items.now }
{
    match items.last() {
        Some(item) => item.major(),
        None => 0,
    }
}

fn light_of<T: Ranked>(items: &[T], from: usize, limit: u64) -> Option<usize>
    ensures { IsFirstLight T.weight limit items.now from (length items.now) result }
{
    for place in from..items.len() {
        if items[place].weight() <= limit {
            return Some(place);
        }
    }
    None
}

impl<T: Ranked, A: Allocator + Copy> Block<T, A> {
    pub(crate) fn new(alloc: A) -> Result<Block<T, A>, Memory>
        ensures { IfOk result (λ block. block ≡ []) }
    {
        Ok(Block {
            items: Vec::with_capacity(alloc, BLOCK_LIMIT)?,
            least: u64::MAX,
            weight: 0,
            last: 0,
        })
    }

    pub(crate) fn as_slice(&self) -> &[T]
        ensures items { result.now ≡ self.now }
        ensures most { length result.now ≤ 128 }
    {
        self.items.as_slice()
    }

    pub(crate) fn weight(&self) -> u128
        ensures value { result ≡ sum_by T.weight self.now }
        ensures light { result < 2 ^ 80 }
    {
        self.weight
    }

    pub(crate) fn weight_of_first(&self, count: usize) -> u128
        requires { count ≤ length self.now }
        ensures value { result ≡ sum_by T.weight (take count self.now) }
        ensures light { result < 2 ^ 80 }
    {
        weight_of(&self.items.as_slice()[..count])
    }

    pub(crate) fn least(&self) -> u64
        ensures { All (λ x. result ≤ T.weight x) self.now }
    {
        self.least
    }

    #[inline]
    pub(crate) fn ends_before(&self, major: u128, minor: u64) -> bool
        ensures { result ≡ ends_by (stands T.major T.minor major minor) self.now }
    {
        match self.items.last() {
            Some(item) => self.last < major || (self.last == major && item.minor() < minor),
            None => false,
        }
    }

    pub(crate) fn insert(&mut self, at: usize, item: T)
        requires within { at ≤ length self.old }
        requires capacity { length self.old < 128 }
        ensures { self.new ≡ insert self.old at item }
    {
        let weight = item.weight();
        self.weight += u128::from(weight);
        self.least = self.least.min(weight);
        let Ok(()) = self.items.insert(at, item) else {
            unreachable!()
        };
        self.last = last_of(self.items.as_slice());
    }

    pub(crate) fn remove(&mut self, at: usize) -> T
        requires { at < length self.old }
        ensures item { result ≡ slice_index_or self.old at result }
        ensures left { self.new ≡ remove self.old at }
    {
        let item = self.items.remove(at);
        self.weight -= u128::from(item.weight());
        self.last = last_of(self.items.as_slice());
        item
    }

    pub(crate) fn cut(&mut self, high: &mut Block<T, A>)
        requires long { 64 ≤ length self.old }
        requires none { high.old ≡ [] }
        ensures low { self.new ≡ take 64 self.old }
        ensures high { high.new ≡ drop 64 self.old }
    {
        let back = &self.items.as_slice()[BLOCK_HALF..];
        let weight = weight_of(back);
        let Ok(()) = high.items.extend_from_slice(back) else {
            unreachable!()
        };
        high.weight = weight;
        high.least = self.least;
        high.last = last_of(high.items.as_slice());
        self.items.truncate(BLOCK_HALF);
        self.weight -= weight;
        self.last = last_of(self.items.as_slice());
    }

    pub(crate) fn join(&mut self, next: &mut Block<T, A>)
        requires { length self.old + length next.old ≤ 128 }
        ensures all { self.new ≡ self.old ++ next.old }
        ensures none { next.new ≡ [] }
    {
        let Ok(()) = self.items.extend_from_slice(next.items.as_slice()) else {
            unreachable!()
        };
        self.weight += next.weight;
        self.least = self.least.min(next.least);
        self.last = last_of(self.items.as_slice());
        next.clear();
    }

    pub(crate) fn clear(&mut self)
        ensures { self.new ≡ [] }
    {
        self.items.clear();
        self.weight = 0;
        self.least = u64::MAX;
    }

    pub(crate) fn first_light(&mut self, from: usize, limit: u64) -> Option<usize>
        ensures first { IsFirstLight T.weight limit self.old from (length self.old) result }
        ensures same { self.new ≡ self.old }
    {
        if limit < self.least {
            return None;
        }
        let found = light_of(self.items.as_slice(), from, limit);
        if found.is_none() && from == 0 {
            self.least = least_of(self.items.as_slice());
        }
        found
    }

    pub(crate) fn put_into(self, blocks: &mut Vec<Block<T, A>, A>, at: usize)
        requires within { at ≤ length blocks.old.items }
        requires capacity { length blocks.old.items < vec_capacity blocks.old }
        ensures items { blocks.new.items ≡ insert blocks.old.items at self }
        ensures kept { vec_capacity blocks.new ≡ vec_capacity blocks.old }
    {
        let Ok(()) = blocks.insert(at, self) else {
            unreachable!()
        };
    }

    pub(crate) fn take_from(empty: &mut Vec<Block<T, A>, A>) -> Block<T, A>
        requires some { 1 ≤ length empty.old.items }
        requires cleared { All (λ block. block ≡ []) empty.old.items }
        ensures none { result ≡ [] }
        ensures cleared { All (λ block. block ≡ []) empty.new.items }
        ensures count { length empty.new.items + 1 ≡ length empty.old.items }
        ensures kept { vec_capacity empty.new ≡ vec_capacity empty.old }
    {
        let Some(block) = empty.pop() else {
            unreachable!()
        };
        block
    }

    pub(crate) fn keep_in(self, empty: &mut Vec<Block<T, A>, A>)
        requires none { self ≡ [] }
        requires cleared { All (λ block. block ≡ []) empty.old.items }
        requires capacity { length empty.old.items < vec_capacity empty.old }
        ensures cleared { All (λ block. block ≡ []) empty.new.items }
        ensures count { length empty.new.items ≡ length empty.old.items + 1 }
        ensures kept { vec_capacity empty.old ≤ vec_capacity empty.new }
    {
        let Ok(()) = empty.push(self) else {
            unreachable!()
        };
    }
}
