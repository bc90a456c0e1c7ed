ghost use Rattle.std.specs.Prelude.{◌≡◌, ℕ};

/// What waits: it has a size, and an estimate of how long it takes.
pub trait Waits: Copy {
    ghost size: { Self → ℕ };

    ghost estimate: { Self → ℕ };

    /// How much it takes.
    fn size(&self) -> u64
        ensures { result ≡ size self.now };

    /// How long it takes at most.
    fn estimate(&self) -> u64
        ensures { result ≡ estimate self.now };
}
