// An edit shares all groups except that of its chunk, and the other chunks of this group. `exchange` puts an
// element where it stands, or, where another list has its chunk, into a copy of the chunk. Chunks that
// move to another group are not counted.
ghost use Rattle.std.specs.Prelude.{◌≡◌, ◌≤◌, ◌+◌, ◌++◌, IfOk, OnErr, OnOk, length, slice_set, take, drop, vec_len};
ghost use Rattle.std.specs.List.{insert, remove};
ghost use Rattle.chunks.specs.Chunks.{CountsNoneOr, flat, moved};
ghost use Rattle.chunks.specs.Groups.{AreGrouped, IsElement, IsSpot, chunk_at, chunk_number, chunks_in, place_at};

use crate::copied::Copied;
use crate::groups::{Group, Place, elements_at, put};
use crate::pieces::copy_of;
use crate::row::{elements, with_chunk};
use std::alloc::Allocator;
use swf_text::Memory;

fn with_elements<T: Drop, A: Allocator + Copy>(
    alloc: A,
    groups: &[Group<T, A>],
    place: Place,
    items: Vec<T, A>,
    count: &mut u32,
) -> Result<Vec<Group<T, A>, A>, Memory>
    requires spot { IsSpot place.group place.chunk groups.now }
    requires most { vec_len items ≤ 257 }
    requires capacity { count.old ≤ 1024 }
    requires sized { AreGrouped groups.now }
    ensures flat { let chunk = chunk_number place.group place.chunk groups.now in IfOk result (λ new. flat (chunks_in new.items) ≡ flat (take chunk (chunks_in groups.now)) ++ items.items ++ flat (drop (chunk + 1) (chunks_in groups.now))) }
    ensures sized { IfOk result (λ new. AreGrouped new.items) }
    ensures count { OnOk result (count.new ≡ count.old + moved (vec_len items)) }
{
    let chunks = with_chunk(
        alloc,
        elements(groups, place.group),
        place.chunk,
        items,
        count,
    )?;
    let mut moved_chunks = 0;
    Ok(with_chunk(alloc, groups, place.group, chunks, &mut moved_chunks)?)
}

pub(crate) fn inserted<T: Copied, A: Allocator + Copy>(
    alloc: A,
    groups: &[Group<T, A>],
    place: Place,
    item: T,
    count: &mut u32,
) -> Result<Vec<Group<T, A>, A>, Memory>
    requires spot { IsSpot place.group place.chunk groups.now }
    requires place { place.at ≤ length (chunk_at place.group place.chunk groups.now) }
    requires capacity { count.old ≤ 768 }
    requires sized { AreGrouped groups.now }
    ensures flat { IfOk result (λ new. flat (chunks_in new.items) ≡ insert (flat (chunks_in groups.now)) (place_at place.group place.chunk place.at groups.now) item) }
    ensures sized { IfOk result (λ new. AreGrouped new.items) }
    ensures count { let old = length (chunk_at place.group place.chunk groups.now) in OnOk result (count.new ≡ count.old + old + moved (old + 1)) }
    ensures most { OnOk result (count.new ≤ count.old + 385) }
{
    let mut items = copy_of(alloc, elements_at(groups, place), count)?;
    items.insert(place.at, item)?;
    Ok(with_elements(alloc, groups, place, items, count)?)
}

pub(crate) fn removed<T: Copied, A: Allocator + Copy>(
    alloc: A,
    groups: &[Group<T, A>],
    place: Place,
    count: &mut u32,
) -> Result<Vec<Group<T, A>, A>, Memory>
    requires element { IsElement place.group place.chunk place.at groups.now }
    requires capacity { count.old ≤ 768 }
    requires sized { AreGrouped groups.now }
    ensures flat { IfOk result (λ new. flat (chunks_in new.items) ≡ remove (flat (chunks_in groups.now)) (place_at place.group place.chunk place.at groups.now)) }
    ensures sized { IfOk result (λ new. AreGrouped new.items) }
    ensures count { OnOk result (count.new ≡ count.old + length (chunk_at place.group place.chunk groups.now)) }
    ensures most { OnOk result (count.new ≤ count.old + 256) }
{
    let mut items = copy_of(alloc, elements_at(groups, place), count)?;
    let _item = items.remove(place.at);
    Ok(with_elements(alloc, groups, place, items, count)?)
}

fn with_another<T: Copied, A: Allocator + Copy>(
    alloc: A,
    groups: &[Group<T, A>],
    place: Place,
    item: T,
    count: &mut u32,
) -> Result<Vec<Group<T, A>, A>, Memory>
    requires element { IsElement place.group place.chunk place.at groups.now }
    requires capacity { count.old ≤ 768 }
    requires sized { AreGrouped groups.now }
    ensures flat { IfOk result (λ new. flat (chunks_in new.items) ≡ slice_set (flat (chunks_in groups.now)) (place_at place.group place.chunk place.at groups.now) item) }
    ensures sized { IfOk result (λ new. AreGrouped new.items) }
    ensures count { OnOk result (count.new ≡ count.old + length (chunk_at place.group place.chunk groups.now)) }
    ensures most { OnOk result (count.new ≤ count.old + 256) }
{
    let mut items = copy_of(alloc, elements_at(groups, place), count)?;
    items[place.at] = item;
    Ok(with_elements(alloc, groups, place, items, count)?)
}

pub(crate) fn exchange<T: Copied, A: Allocator + Copy>(
    groups: &mut Vec<Group<T, A>, A>,
    place: Place,
    item: T,
    count: &mut u32,
) -> Result<(), Memory>
    requires element { IsElement place.group place.chunk place.at groups.old.items }
    requires capacity { count.old ≤ 768 }
    requires sized { AreGrouped groups.old.items }
    ensures flat { OnOk result (flat (chunks_in groups.new.items) ≡ slice_set (flat (chunks_in groups.old.items)) (place_at place.group place.chunk place.at groups.old.items) item) }
    ensures sized { AreGrouped groups.new.items }
    ensures kept { OnErr result (groups.new.items ≡ groups.old.items) }
    ensures count { OnOk result (CountsNoneOr (length (chunk_at place.group place.chunk groups.old.items)) count.old count.new) }
    ensures most { OnOk result (count.new ≤ count.old + 256) }
{
    if let Err(item) = put(groups.as_mut_slice(), place, item) {
        let alloc = *groups.allocator();
        *groups = with_another(alloc, groups.as_slice(), place, item, count)?;
    }
    Ok(())
}
