ghost use Rattle.std.specs.Prelude.{◌≡◌, ◌≤◌, ◌<◌, ◌+◌, ◌++◌, IfOk, OnOk, length, take, drop, vec_len};
ghost use Rattle.chunks.specs.Chunks.{AreSized, chunk_of, flat, moved};

use crate::chunk::Chunk;
use crate::pieces::{joined, pieces_of};
use std::alloc::Allocator;
use swf_text::Memory;

pub(crate) fn elements<T: Drop, A: Allocator + Copy>(row: &[Chunk<T, A>], chunk: usize) -> &[T]
    requires { AreSized row.now }
    ensures value { result.now ≡ chunk_of row.now chunk }
    ensures len { length result.now ≡ length (chunk_of row.now chunk) }
    ensures most { length result.now ≤ 256 }
{
    if chunk < row.len() {
        row[chunk].as_slice()
    } else {
        &[]
    }
}

pub(crate) fn after<T: Drop, A: Allocator + Copy>(
    row: &[Chunk<T, A>],
    chunk: usize,
) -> &[Chunk<T, A>]
    ensures { result.now ≡ drop (chunk + 1) row.now }
{
    if chunk < row.len() {
        &row[chunk + 1..]
    } else {
        &[]
    }
}

pub(crate) fn with_chunk<T: Drop, A: Allocator + Copy>(
    alloc: A,
    row: &[Chunk<T, A>],
    chunk: usize,
    items: Vec<T, A>,
    count: &mut u32,
) -> Result<Vec<Chunk<T, A>, A>, Memory>
    requires within { chunk ≤ length row.now }
    requires most { vec_len items ≤ 257 }
    requires capacity { count.old ≤ 1024 }
    requires sized { AreSized row.now }
    ensures flat { IfOk result (λ new. flat new.items ≡ flat (take chunk row.now) ++ items.items ++ flat (drop (chunk + 1) row.now)) }
    ensures sized { IfOk result (λ new. AreSized new.items) }
    ensures count { OnOk result (count.new ≡ count.old + moved (vec_len items)) }
    ensures most { chunk < 256 → length row.now ≤ 256 → IfOk result (λ new. vec_len new ≤ 257) }
{
    let pieces = pieces_of(alloc, items, count)?;
    Ok(joined(alloc, &row[..chunk], pieces.as_slice(), after(row, chunk))?)
}
