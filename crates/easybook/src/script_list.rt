ghost use Rattle.std.specs.Prelude.{◌≡◌, IfSome, Some, length, map, slice_get};

use crate::works::Works;
use std::alloc::Allocator;
use std::marker::PhantomData;

/// The scripts that are worked side by side, under the name that was picked for them, and their log's
/// comments, which `save` writes.
#[derive(Drop)]
pub(crate) struct ScriptList<'s, A: Allocator + Copy, J: Works> {
    comments: &'s [Vec<u8, A>],
    scripts: &'s [Vec<u8, A>],
    of: PhantomData<J>,
    pub ghost comments_are: { map (λ c. c.items) comments.now ≡ J.comments },
    pub ghost scripts_are: { map (λ s. s.items) scripts.now ≡ J.scripts },
}

impl<'s, A: Allocator + Copy, J: Works> ScriptList<'s, A, J> {
    pub(crate) fn new(comments: &'s [Vec<u8, A>], scripts: &'s [Vec<u8, A>]) -> ScriptList<'s, A, J>
        requires comments { J.comments ≡ map (λ c. c.items) comments.now }
        requires scripts { J.scripts ≡ map (λ s. s.items) scripts.now }
    {
        ScriptList {
            comments,
            scripts,
            of: PhantomData,
        }
    }

    pub(crate) fn count(&self) -> usize
        ensures { result ≡ length J.scripts }
    {
        self.scripts.len()
    }

    pub(crate) fn comments(&self) -> &'s [Vec<u8, A>]
        ensures { map (λ c. c.items) result.now ≡ J.comments }
    {
        self.comments
    }

    pub(crate) fn at(&self, place: usize) -> Option<&'s [u8]>
        ensures { IfSome result (λ script. slice_get J.scripts place ≡ Some script.now) }
    {
        let script = self.scripts.get(place)?;
        Some(script.as_slice())
    }
}
