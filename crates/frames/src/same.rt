ghost use Rattle.std.specs.Prelude.{◌≡◌, ◌↔◌, IsTrue};

use crate::keyed::Keyed;

/// What has a key, and can be told from every other value.
pub trait Same: Keyed {
    /// Whether the two are one value.
    fn is(&self, other: &Self) -> bool
        ensures { IsTrue result ↔ (self.now ≡ other.now) };
}

impl Same for u64 {
    fn is(&self, other: &u64) -> bool {
        *self == *other
    }
}
