ghost use Rattle.std.specs.Prelude.{◌≡◌, ℕ, IfOk};

use swf_text::Memory;

/// What can be copied, unless memory runs out.
pub trait Copied: Drop {
    /// The same value once more.
    fn copied(&self) -> Result<Self, Memory>
        ensures { IfOk result (λ copy. copy ≡ self.now) };
}

/// What stands in the order of two numbers: by the first, and of one first number by the second.
pub trait Keyed: Copied {
    ghost major: { Self → ℕ };

    ghost minor: { Self → ℕ };

    /// The number that orders first.
    fn major(&self) -> u64
        ensures { result ≡ major self.now };

    /// The number that orders those of one first number.
    fn minor(&self) -> u64
        ensures { result ≡ minor self.now };
}
