ghost use Rattle.std.specs.Prelude.{◌≡◌, ℕ};

/// What stands in the order of two numbers: by the first, and of one first number by the second. Each
/// weighs something.
pub trait Ranked: Copy {
    ghost major: { Self → ℕ };

    ghost minor: { Self → ℕ };

    ghost weight: { Self → ℕ };

    /// The number that orders first. It is wide, so that a sum of two numbers serves without a bound.
    fn major(&self) -> u128
        ensures { result ≡ major self.now };

    /// The number that orders those of one first number.
    fn minor(&self) -> u64
        ensures { result ≡ minor self.now };

    /// What it weighs.
    fn weight(&self) -> u64
        ensures { result ≡ weight self.now };
}
