ghost use Rattle.std.specs.Prelude.{◌≡◌, map};
ghost use Rattle.swf_text.specs.Log.{IsLog};

use crate::entry::Entry;
use std::alloc::Allocator;
use std::marker::Model;

/// The comments and the entries of a log. Job numbers are distinct, and there are at most
/// 4,194,304 entries.
#[derive(Drop)]
pub struct SwfText<A: Allocator + Copy> {
    comments: Vec<Vec<u8, A>, A>,
    entries: Vec<Entry<A>, A>,
}

impl<A: Allocator + Copy> Model for SwfText<A> {
    ghost use Rattle.std.specs.Prelude.{map};
    ghost use Rattle.swf_text.specs.Log.{IsLog};
    ghost use Rattle.swf_text.specs.Text.{LogText};

    ghost Value = { LogText };

    ghost view = { λ t. record { comments = map (λ c. c.items) t.comments.items; entries = t.entries.items } };

    ghost invariant = { λ t. IsLog t.entries.items };
}

impl<A: Allocator + Copy> SwfText<A> {
    /// A log of these comments and entries. Its condition is what holds of every log: job numbers
    /// are distinct, and there are at most 4,194,304 entries.
    pub fn of_parts(comments: Vec<Vec<u8, A>, A>, entries: Vec<Entry<A>, A>) -> SwfText<A>
        requires { IsLog entries.items }
        ensures comments { result.comments ≡ map (λ c. c.items) comments.items }
        ensures entries { result.entries ≡ entries.items }
    {
        SwfText { comments, entries }
    }

    /// The comments, in order: each from its `;` on, without the carriage returns at its end.
    pub fn comments(&self) -> &[Vec<u8, A>]
        ensures { map (λ c. c.items) result.now ≡ self.now.comments }
    {
        self.comments.as_slice()
    }

    /// The entries, in the order of their summary lines.
    pub fn entries(&self) -> &[Entry<A>]
        ensures entries { result.now ≡ self.now.entries }
        ensures log { IsLog self.now.entries }
    {
        self.entries.as_slice()
    }

    /// The comments and the entries, taken out of the log: each comment from its `;` on, the entries in
    /// the order of their summary lines.
    pub fn into_parts(self) -> (Vec<Vec<u8, A>, A>, Vec<Entry<A>, A>)
        ensures comments { map (λ c. c.items) result.0.items ≡ self.comments }
        ensures entries { result.1.items ≡ self.entries }
        ensures log { IsLog self.entries }
    {
        (self.comments, self.entries)
    }
}
