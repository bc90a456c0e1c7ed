// Where no element stands at the place, `place_of` is behind the last group, and `open_place` at the end of
// the last chunk, if there is one.
ghost use Rattle.std.specs.Prelude.{◌≡◌, ◌≤◌, ◌<◌, ◌+◌, length, not};
ghost use Rattle.std.specs.List.{position_or_len};
ghost use Rattle.std.specs.List.Sorted.{IsPartitionedBy};
ghost use Rattle.chunks.specs.Chunks.{AreSized, ends_by, flat, place_in, stands, touched};
ghost use Rattle.chunks.specs.Groups.{AreGrouped, IsSpot, chunk_at, chunk_number, chunks_in, place_at};

use crate::chunk::Chunk;
use crate::copied::Keyed;
use crate::groups::{Group, Place};
use crate::row::elements;
use std::alloc::Allocator;

fn is_before<T: Keyed>(item: &T, major: u64, minor: u64) -> bool
    ensures { result ≡ stands T.major T.minor major minor item.now }
{
    let own = item.major();
    own < major || (own == major && item.minor() < minor)
}

fn ends_before<T: Keyed>(items: &[T], major: u64, minor: u64) -> bool
    ensures { result ≡ ends_by (stands T.major T.minor major minor) items.now }
{
    match items.last() {
        Some(last) => is_before(last, major, minor),
        None => false,
    }
}

fn last_ends_before<T: Keyed, A: Allocator + Copy>(
    chunks: &[Chunk<T, A>],
    major: u64,
    minor: u64,
) -> bool
    ensures { result ≡ ends_by (ends_by (stands T.major T.minor major minor)) chunks.now }
{
    match chunks.last() {
        Some(chunk) => ends_before(chunk.as_slice(), major, minor),
        None => false,
    }
}

fn chunk_before<T: Keyed, A: Allocator + Copy>(row: &[Chunk<T, A>], major: u64, minor: u64) -> usize
    requires sized { AreSized row.now }
    requires parted { IsPartitionedBy (stands T.major T.minor major minor) (flat row.now) }
    ensures within { result ≤ length row.now }
    ensures place { result ≡ position_or_len (λ chunk. not (ends_by (stands T.major T.minor major minor) chunk)) row.now }
{
    row.partition_point(
        |chunk: &Chunk<T, A>| -> bool
            ensures { result ≡ ends_by (stands T.major T.minor major minor) chunk.now }
        { ends_before(chunk.as_slice(), major, minor) },
    )
}

fn group_before<T: Keyed, A: Allocator + Copy>(
    groups: &[Group<T, A>],
    major: u64,
    minor: u64,
) -> usize
    requires sized { AreGrouped groups.now }
    requires parted { IsPartitionedBy (stands T.major T.minor major minor) (flat (chunks_in groups.now)) }
    ensures within { result ≤ length groups.now }
    ensures place { result ≡ position_or_len (λ chunks. not (ends_by (ends_by (stands T.major T.minor major minor)) chunks)) groups.now }
{
    groups.partition_point(
        |group: &Group<T, A>| -> bool
            ensures { result ≡ ends_by (ends_by (stands T.major T.minor major minor)) group.now }
        { last_ends_before(group.as_slice(), major, minor) },
    )
}

fn before<T: Keyed>(items: &[T], major: u64, minor: u64) -> usize
    requires { IsPartitionedBy (stands T.major T.minor major minor) items.now }
    ensures within { result ≤ length items.now }
    ensures place { result ≡ position_or_len (λ x. not (stands T.major T.minor major minor x)) items.now }
{
    items.partition_point(
        |item: &T| -> bool
            ensures { result ≡ stands T.major T.minor major minor item.now }
        { is_before(item, major, minor) },
    )
}

pub(crate) fn place_of<T: Keyed, A: Allocator + Copy>(
    groups: &[Group<T, A>],
    major: u64,
    minor: u64,
) -> Place
    requires sized { AreGrouped groups.now }
    requires parted { IsPartitionedBy (stands T.major T.minor major minor) (flat (chunks_in groups.now)) }
    ensures spot { IsSpot result.group result.chunk groups.now }
    ensures within { result.at ≤ length (chunk_at result.group result.chunk groups.now) }
    ensures place { place_at result.group result.chunk result.at groups.now ≡ place_in T.major T.minor major minor (flat (chunks_in groups.now)) }
    ensures inside { place_at result.group result.chunk result.at groups.now < length (flat (chunks_in groups.now)) → result.at < length (chunk_at result.group result.chunk groups.now) }
    ensures there { result.group < length groups.now → result.at < length (chunk_at result.group result.chunk groups.now) }
{
    let group = group_before(groups, major, minor);
    let chunks = elements(groups, group);
    let chunk = chunk_before(chunks, major, minor);
    let at = before(elements(chunks, chunk), major, minor);
    Place { group, chunk, at }
}

fn last_place<T: Drop, A: Allocator + Copy>(groups: &[Group<T, A>]) -> Place
    requires some { 1 ≤ length groups.now }
    requires sized { AreGrouped groups.now }
    ensures spot { IsSpot result.group result.chunk groups.now }
    ensures last { chunk_number result.group result.chunk groups.now + 1 ≡ length (chunks_in groups.now) }
    ensures at { result.at ≡ length (chunk_at result.group result.chunk groups.now) }
{
    let group = groups.len() - 1;
    let chunks = elements(groups, group);
    let chunk = chunks.len() - 1;
    let at = elements(chunks, chunk).len();
    Place { group, chunk, at }
}

pub(crate) fn open_place<T: Drop, A: Allocator + Copy>(
    groups: &[Group<T, A>],
    place: Place,
) -> Place
    requires spot { IsSpot place.group place.chunk groups.now }
    requires within { place.at ≤ length (chunk_at place.group place.chunk groups.now) }
    requires there { place.group < length groups.now → place.at < length (chunk_at place.group place.chunk groups.now) }
    requires sized { AreGrouped groups.now }
    ensures spot { IsSpot result.group result.chunk groups.now }
    ensures within { result.at ≤ length (chunk_at result.group result.chunk groups.now) }
    ensures touched { length (chunk_at result.group result.chunk groups.now) ≡ touched (place_at place.group place.chunk place.at groups.now) (chunks_in groups.now) }
    ensures place { place_at result.group result.chunk result.at groups.now ≡ place_at place.group place.chunk place.at groups.now }
{
    if place.group < groups.len() || groups.is_empty() {
        return place;
    }
    last_place(groups)
}
