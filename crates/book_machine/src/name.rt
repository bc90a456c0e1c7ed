ghost use Rattle.std.specs.Prelude.{◌≡◌, ◌==◌, IfOk};
ghost use Rattle.std.specs.Cmp.Lexicographic.{pointwise};
ghost use Rattle.std.specs.Cmp.Rules.{comparing};
ghost use Rattle.std.proofs.Common.{rules};

use std::alloc::Allocator;
use std::marker::Model;
use swf_text::Memory;

/// A scenario's name as a call gave it: any text, also one that no scenario may have.
#[derive(Drop)]
pub struct NotedName<A: Allocator + Copy> {
    text: String<A>,
}

impl<A: Allocator + Copy> Model for NotedName<A> {
    ghost use Rattle.std.specs.Prelude.{List, ℕ};
    ghost use Rattle.std.specs.String.{string_bytes};

    ghost Value = { List ℕ };

    ghost view = { λ name. string_bytes name.text };
}

impl<A: Allocator + Copy> PartialEq for NotedName<A> {
    ghost eq = { pointwise ◌==◌ };

    ghost laws = { Prim.search (comparing, rules) };

    fn eq(&self, other: &NotedName<A>) -> bool {
        self.text.as_bytes() == other.text.as_bytes()
    }
}

impl<A: Allocator + Copy> Eq for NotedName<A> {
    ghost laws = { Prim.search (comparing, rules) };
}

impl<A: Allocator + Copy> NotedName<A> {
    /// The name of this text; Memory where the growth for it is refused.
    pub fn new(alloc: A, text: &str) -> Result<NotedName<A>, Memory>
        ensures { IfOk result (λ name. name ≡ text.now) }
    {
        Ok(NotedName {
            text: String::from_str(alloc, text)?,
        })
    }

    /// Its text.
    pub fn text(&self) -> &str
        ensures { result.now ≡ self.now }
    {
        self.text.as_str()
    }
}
