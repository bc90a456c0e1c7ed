ghost use Rattle.std.specs.Prelude.{◌≡◌, ◌<◌, ◌≤◌, ◌%◌, length, slice_index_or};

use rand_core::utils::NextWord;
use rand_pcg::Pcg32;

/// The item whose turn it is: they take turns in their order, over and over.
pub fn of_turn<T: Copy>(items: &[T], turn: u64) -> T
    requires { 0 < length items.now }
    ensures { result ≡ slice_index_or items.now (turn % length items.now) result }
{
    items[(turn % items.len() as u64) as usize]
}

/// Numbers that a seed determines.
#[derive(Drop)]
pub struct Chance {
    source: Pcg32,
}

impl Chance {
    /// The numbers of a seed, in one of its streams.
    pub fn new(seed: u64, stream: u64) -> Chance {
        Chance {
            source: Pcg32::new(seed, stream),
        }
    }

    /// The next number below a limit.
    pub fn below(&mut self, limit: u64) -> u64
        requires { 0 < limit }
        ensures { result < limit }
    {
        u64::from(self.source.next_word()) % limit
    }

    /// A place among so many.
    pub fn place(&mut self, count: usize) -> usize
        requires { 0 < count }
        ensures { result < count }
    {
        self.below(count as u64) as usize
    }

    /// The next number from `low` to `high`.
    pub fn within(&mut self, low: u64, high: u64) -> u64
        requires order { low ≤ high }
        requires limit { high ≤ 1000000 }
        ensures least { low ≤ result }
        ensures most { result ≤ high }
    {
        low + self.below(high - low + 1)
    }
}
