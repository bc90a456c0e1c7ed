ghost use Rattle.std.specs.Prelude.{◌≡◌, ◌++◌};
ghost use Rattle.std.specs.Iterator.{YieldsFirstRef, item_count};
ghost use Rattle.blocks.specs.Rows.{AreFilled, flat};

use crate::block::Block;
use crate::ranked::Ranked;
use std::alloc::Allocator;
use std::marker::Model;

/// The items of a row in blocks from a place on, in order.
#[derive(Drop)]
pub struct Items<'a, T: Ranked, A: Allocator + Copy> {
    items: &'a [T],
    later: &'a [Block<T, A>],
}

impl<'a, T: Ranked, A: Allocator + Copy> Model for Items<'a, T, A> {
    ghost use Rattle.std.specs.Prelude.{List, ◌++◌};
    ghost use Rattle.blocks.specs.Rows.{AreFilled, IsFront, flat};

    ghost Value = { List T };

    ghost view = { λ i. i.items.now ++ flat i.later.now };

    ghost invariant = { λ i. AreFilled i.later.now × IsFront i.items.now i.later.now };
}

fn items_from<'a, T: Ranked, A: Allocator + Copy>(
    items: &'a [T],
    later: &'a [Block<T, A>],
) -> Items<'a, T, A>
    requires { AreFilled later.now }
    ensures { result ≡ items.now ++ flat later.now }
{
    if !items.is_empty() {
        return Items { items, later };
    }
    match later.split_first() {
        None => Items { items, later },
        Some((block, later)) => Items {
            items: block.as_slice(),
            later,
        },
    }
}

impl<'a, T: Ranked, A: Allocator + Copy> Items<'a, T, A> {
    pub(crate) fn of(blocks: &'a [Block<T, A>]) -> Items<'a, T, A>
        requires { AreFilled blocks.now }
        ensures { result ≡ flat blocks.now }
    {
        items_from(&[], blocks)
    }
}

impl<'a, T: Ranked, A: Allocator + Copy> Iterator for Items<'a, T, A> {
    type Item = &'a T;

    ghost next_gives = { YieldsFirstRef (λ i. i) };

    ghost remaining = { item_count (λ i. i) };

    fn next(&mut self) -> Option<&'a T> {
        let (first, items) = self.items.split_first()?;
        *self = items_from(items, self.later);
        Some(first)
    }
}
