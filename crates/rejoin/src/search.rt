ghost use Rattle.std.specs.Prelude.{◌≡◌, ◌↔◌, ℕ, IsTrue};
ghost use Rattle.std.specs.List.{Contains};
ghost use Rattle.std.specs.List.Sorted.{IsNonDecreasing, IsPermutation, IsStrictlyIncreasing};
ghost use Rattle.rejoin.specs.Search.{IsLeastFrom};
ghost use Rattle.rejoin.specs.Started.{count_before};

use std::alloc::Allocator;

pub(crate) fn rising<A: Allocator + Copy>(numbers: Vec<u64, A>) -> Vec<u64, A>
    ensures same { IsPermutation numbers.items result.items }
    ensures rising { IsNonDecreasing result.items }
{
    let mut sorted = numbers;
    sorted.sort_unstable();
    sorted
}

pub(crate) fn distinct<A: Allocator + Copy>(numbers: Vec<u64, A>) -> Vec<u64, A>
    ensures same { (n : ℕ) → Contains numbers.items n ↔ Contains result.items n }
    ensures rising { IsStrictlyIncreasing result.items }
{
    let mut sorted = numbers;
    sorted.sort_unstable();
    sorted.dedup();
    sorted
}

pub(crate) fn least_from(numbers: &[u64], bound: u64) -> Option<u64>
    requires { IsNonDecreasing numbers.now }
    ensures { IsLeastFrom numbers.now bound result }
{
    let place = numbers.partition_point(|number| *number < bound);
    if place < numbers.len() {
        return Some(numbers[place]);
    }
    None
}

pub(crate) fn count_below(numbers: &[u64], bound: u64) -> usize
    requires { IsNonDecreasing numbers.now }
    ensures { result ≡ count_before bound numbers.now }
{
    numbers.partition_point(|number| *number < bound)
}

pub(crate) fn is_among(numbers: &[u64], number: u64) -> bool
    requires { IsNonDecreasing numbers.now }
    ensures { IsTrue result ↔ Contains numbers.now number }
{
    match least_from(numbers, number) {
        None => false,
        Some(least) => least == number,
    }
}
