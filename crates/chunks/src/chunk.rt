ghost use Rattle.std.specs.Prelude.{◌≡◌, ◌≤◌, ◌<◌, ◌+◌, IfErr, IfOk, OnErr, OnOk, length, slice_set, take, drop};
ghost use Rattle.chunks.specs.Chunks.{chunk_of};

use std::alloc::Allocator;
use std::marker::Model;
use std::sync::Arc;
use swf_text::Memory;

/// Elements that several lists may share: a range of a list of which other chunks may have other
/// ranges. The memory of that list stays as long as any chunk of it does.
#[derive(Drop)]
pub(crate) struct Chunk<T: Drop, A: Allocator + Copy> {
    list: Arc<Vec<T, A>, A>,
    from: usize,
    len: usize,
}

impl<T: Drop, A: Allocator + Copy> Model for Chunk<T, A> {
    ghost use Rattle.std.specs.Prelude.{List, ◌≤◌, ◌+◌, length, take, drop};

    ghost Value = { List T };

    ghost view = { λ c. take c.len (drop c.from c.list.value.items) };

    ghost invariant = { λ c. c.from + c.len ≤ length c.list.value.items };
}

impl<T: Drop, A: Allocator + Copy> Chunk<T, A> {
    pub(crate) fn of(alloc: A, items: Vec<T, A>) -> Result<Chunk<T, A>, Memory>
        ensures { IfOk result (λ chunk. chunk ≡ items.items) }
    {
        let len = items.len();
        let list = Arc::new(alloc, items)?;
        Ok(Chunk { list, from: 0, len })
    }

    pub(crate) fn part(&self, from: usize, len: usize) -> Result<Chunk<T, A>, Memory>
        requires { from + len ≤ length self.now }
        ensures { IfOk result (λ part. part ≡ take len (drop from self.now)) }
    {
        Ok(Chunk {
            list: Arc::try_clone(&self.list)?,
            from: self.from + from,
            len,
        })
    }

    pub(crate) fn share(&self) -> Result<Chunk<T, A>, Memory>
        ensures { IfOk result (λ chunk. chunk ≡ self.now) }
    {
        self.part(0, self.len)
    }

    pub(crate) fn as_slice(&self) -> &[T]
        ensures { result.now ≡ self.now }
    {
        &self.list.as_slice()[self.from..][..self.len]
    }

    pub(crate) fn put(&mut self, at: usize, item: T) -> Result<(), T>
        requires { at < length self.old }
        ensures put { OnOk result (self.new ≡ slice_set self.old at item) }
        ensures kept { OnErr result (self.new ≡ self.old) }
        ensures back { IfErr result (λ back. back ≡ item) }
    {
        let at = self.from + at;
        let Some(list) = Arc::get_mut(&mut self.list) else {
            return Err(item);
        };
        list[at] = item;
        Ok(())
    }
}

impl<T: Drop, A: Allocator + Copy> Chunk<Chunk<T, A>, A> {
    // The element is put at its place where no other list has that chunk.
    pub(crate) fn put_in(&mut self, chunk: usize, at: usize, item: T) -> Result<(), T>
        requires chunk { chunk < length self.old }
        requires at { at < length (chunk_of self.old chunk) }
        ensures put { OnOk result (self.new ≡ slice_set self.old chunk (slice_set (chunk_of self.old chunk) at item)) }
        ensures kept { OnErr result (self.new ≡ self.old) }
        ensures back { IfErr result (λ back. back ≡ item) }
    {
        let chunk = self.from + chunk;
        let Some(list) = Arc::get_mut(&mut self.list) else {
            return Err(item);
        };
        list[chunk].put(at, item)
    }
}
