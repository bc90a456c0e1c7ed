ghost use Rattle.std.specs.Prelude.{◌≡◌, ◌≤◌, IfErr, OnErr, OnOk, length, slice_set};
ghost use Rattle.chunks.specs.Chunks.{flat};
ghost use Rattle.chunks.specs.Groups.{AreGrouped, IsElement, IsSpot, chunk_at, chunks_in, place_at};

use crate::chunk::Chunk;
use crate::row::elements;
use std::alloc::Allocator;

/// Chunks that several lists may share: a chunk whose elements are chunks.
pub(crate) type Group<T, A> = Chunk<Chunk<T, A>, A>;

/// A place in a row of groups: a group, a chunk of it, and a place in that.
#[derive(Clone, Copy)]
pub(crate) struct Place {
    pub(crate) group: usize,
    pub(crate) chunk: usize,
    pub(crate) at: usize,
}

pub(crate) fn elements_at<T: Drop, A: Allocator + Copy>(
    groups: &[Group<T, A>],
    place: Place,
) -> &[T]
    requires spot { IsSpot place.group place.chunk groups.now }
    requires sized { AreGrouped groups.now }
    ensures value { result.now ≡ chunk_at place.group place.chunk groups.now }
    ensures len { length result.now ≡ length (chunk_at place.group place.chunk groups.now) }
    ensures most { length result.now ≤ 256 }
{
    let chunks = elements(groups, place.group);
    elements(chunks, place.chunk)
}

// The element is put at its place where no other list has that chunk.
pub(crate) fn put<T: Drop, A: Allocator + Copy>(
    groups: &mut [Group<T, A>],
    place: Place,
    item: T,
) -> Result<(), T>
    requires element { IsElement place.group place.chunk place.at groups.old }
    requires sized { AreGrouped groups.old }
    ensures put { OnOk result (flat (chunks_in groups.new) ≡ slice_set (flat (chunks_in groups.old)) (place_at place.group place.chunk place.at groups.old) item) }
    ensures sized { OnOk result (AreGrouped groups.new) }
    ensures kept { OnErr result (groups.new ≡ groups.old) }
    ensures back { IfErr result (λ back. back ≡ item) }
{
    groups[place.group].put_in(place.chunk, place.at, item)
}
