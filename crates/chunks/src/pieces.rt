// What `chunks_of` returns are ranges of its list, whose elements stay where they are. `pieces_of` counts
// each element that moves to a second chunk.
ghost use Rattle.std.specs.Prelude.{◌≡◌, ◌≤◌, ◌<◌, ◌+◌, ◌++◌, IfOk, OnOk, length, vec_len};
ghost use Rattle.chunks.specs.Chunks.{AreFull, AreSized, flat, moved};

use crate::chunk::Chunk;
use crate::copied::Copied;
use std::alloc::Allocator;
use swf_text::Memory;

/// The most elements of a chunk.
const CHUNK_LIMIT: usize = 256;

/// How many of a chunk's elements stay in it when it is split.
const CHUNK_HALF: usize = 128;

pub(crate) fn copy_of<T: Copied, A: Allocator + Copy>(
    alloc: A,
    items: &[T],
    count: &mut u32,
) -> Result<Vec<T, A>, Memory>
    requires short { length items.now ≤ 256 }
    requires capacity { count.old ≤ 1024 }
    ensures items { IfOk result (λ copy. copy.items ≡ items.now) }
    ensures len { IfOk result (λ copy. vec_len copy ≡ length items.now) }
    ensures count { OnOk result (count.new ≡ count.old + length items.now) }
{
    let mut copy = Vec::with_capacity(alloc, items.len() + 1)?;
    for item in items {
        *count += 1;
        copy.push(item.copied()?)?;
    }
    Ok(copy)
}

pub(crate) fn pieces_of<T: Drop, A: Allocator + Copy>(
    alloc: A,
    mut items: Vec<T, A>,
    count: &mut u32,
) -> Result<Vec<Chunk<T, A>, A>, Memory>
    requires most { vec_len items ≤ 257 }
    requires capacity { count.old ≤ 1024 }
    ensures flat { IfOk result (λ pieces. flat pieces.items ≡ items.items) }
    ensures sized { IfOk result (λ pieces. AreSized pieces.items) }
    ensures most { IfOk result (λ pieces. vec_len pieces ≤ 2) }
    ensures count { OnOk result (count.new ≡ count.old + moved (vec_len items)) }
{
    let mut pieces = Vec::with_capacity(alloc, 2)?;
    if items.is_empty() {
        return Ok(pieces);
    }
    if items.len() <= CHUNK_LIMIT {
        pieces.push(Chunk::of(alloc, items)?)?;
        return Ok(pieces);
    }
    let back = items.split_off(CHUNK_HALF)?;
    *count += back.len() as u32;
    pieces.push(Chunk::of(alloc, items)?)?;
    pieces.push(Chunk::of(alloc, back)?)?;
    Ok(pieces)
}

pub(crate) fn share<T: Drop, A: Allocator + Copy>(
    row: &mut Vec<Chunk<T, A>, A>,
    more: &[Chunk<T, A>],
) -> Result<(), Memory>
    ensures { OnOk result (row.new.items ≡ row.old.items ++ more.now) }
{
    for chunk in more {
        row.push(chunk.share()?)?;
    }
    Ok(())
}

pub(crate) fn joined<T: Drop, A: Allocator + Copy>(
    alloc: A,
    front: &[Chunk<T, A>],
    pieces: &[Chunk<T, A>],
    back: &[Chunk<T, A>],
) -> Result<Vec<Chunk<T, A>, A>, Memory>
    ensures { IfOk result (λ row. row.items ≡ front.now ++ pieces.now ++ back.now) }
{
    let len = front
        .len()
        .saturating_add(pieces.len())
        .saturating_add(back.len());
    let mut row = Vec::with_capacity(alloc, len)?;
    share(&mut row, front)?;
    share(&mut row, pieces)?;
    share(&mut row, back)?;
    Ok(row)
}

pub(crate) fn chunks_of<T: Drop, A: Allocator + Copy>(
    alloc: A,
    items: Vec<T, A>,
) -> Result<Vec<Chunk<T, A>, A>, Memory>
    ensures flat { IfOk result (λ row. flat row.items ≡ items.items) }
    ensures sized { IfOk result (λ row. AreSized row.items) }
    ensures full { IfOk result (λ row. AreFull row.items) }
{
    let len = items.len();
    let mut row = Vec::with_capacity(alloc, len / CHUNK_LIMIT + 1)?;
    let whole = Chunk::of(alloc, items)?;
    let mut from = 0;
    'chunks: while from < len {
        let next = CHUNK_LIMIT.min(len - from);
        row.push(whole.part(from, next)?)?;
        from += next;
    }
    Ok(row)
}
