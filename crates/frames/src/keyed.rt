ghost use Rattle.std.specs.Prelude.{◌≡◌, ℕ};

/// What has a key, by which it is found and put in order.
pub trait Keyed: Copy {
    ghost key: { Self → ℕ };

    /// The key.
    fn key(&self) -> u64
        ensures { result ≡ key self.now };
}

/// A number is its own key.
impl Keyed for u64 {
    ghost key = { λ n. n };

    fn key(&self) -> u64 {
        *self
    }
}
