ghost use Rattle.std.specs.Prelude.{◌≡◌, ◌≤◌, ◌<◌, ◌+◌, ◌==◌, IfOk, OnErr, OnOk, Some, None, true, is_some, length, map, if◌then◌else◌};
ghost use Rattle.std.specs.List.Sorted.{IsNonDecreasingBy, IsPermutation};
ghost use Rattle.chunks.specs.Chunks.{CountsNoneOr, flat, joining, place_in, touched};
ghost use Rattle.job_table.specs.Table.{NumbersRise, SetsSecond, number_in, pair_of, second_of};

use chunks::{Chunks, Numbered};
use std::alloc::Allocator;
use swf_text::{Entry, Memory};

/// The submit second of each job, by its number.
pub(crate) type Index<A> = Chunks<Numbered, A>;

pub(crate) fn pairs_of<A: Allocator + Copy>(
    alloc: A,
    rows: &[Entry<A>],
) -> Result<Vec<Numbered, A>, Memory>
    ensures { IfOk result (λ pairs. pairs.items ≡ map pair_of rows.now) }
{
    let mut pairs = Vec::with_capacity(alloc, rows.len())?;
    for entry in rows {
        let pair = Numbered {
            number: entry.number(),
            submit: entry.submit(),
        };
        pairs.push(pair)?;
    }
    Ok(pairs)
}

// Pairs that stand in order are left, and no memory is taken.
fn sort_pairs<A: Allocator + Copy>(pairs: &mut Vec<Numbered, A>) -> Result<(), Memory>
    ensures same { OnOk result (IsPermutation pairs.old.items pairs.new.items) }
    ensures order { OnOk result (IsNonDecreasingBy number_in pairs.new.items) }
{
    let rising = pairs
        .as_slice()
        .is_sorted_by(|one, next| one.number <= next.number);
    if rising {
        return Ok(());
    }
    pairs.sort_by_key(|pair| pair.number)?;
    Ok(())
}

pub(crate) fn index_of<A: Allocator + Copy>(
    alloc: A,
    mut pairs: Vec<Numbered, A>,
) -> Result<Index<A>, Memory>
    ensures same { IfOk result (λ index. IsPermutation pairs.items (flat index)) }
    ensures order { IfOk result (λ index. IsNonDecreasingBy number_in (flat index)) }
{
    sort_pairs(&mut pairs)?;
    Ok(Chunks::of(alloc, pairs)?)
}

pub(crate) fn has_number<A: Allocator + Copy>(index: &Index<A>, number: u64) -> bool
    requires { NumbersRise (flat index.now) }
    ensures { result ≡ is_some (second_of (flat index.now) number) }
{
    match index.find(number, number) {
        Some(pair) => pair.number == number,
        None => false,
    }
}

fn second_if(pair: &Numbered, number: u64) -> Option<u64>
    ensures { result ≡ (if pair.now.number == number then Some pair.now.submit else None) }
{
    if pair.number == number {
        return Some(pair.submit);
    }
    None
}

pub(crate) fn second<A: Allocator + Copy>(index: &Index<A>, number: u64) -> Option<u64>
    requires { NumbersRise (flat index.now) }
    ensures { result ≡ second_of (flat index.now) number }
{
    match index.find(number, number) {
        Some(pair) => second_if(pair, number),
        None => None,
    }
}

pub(crate) fn with_number<A: Allocator + Copy>(
    index: &Index<A>,
    number: u64,
    submit: u64,
    count: &mut u32,
) -> Result<Index<A>, Memory>
    requires rising { NumbersRise (flat index.now) }
    requires new { second_of (flat index.now) number ≡ None }
    requires capacity { count.old ≤ 768 }
    ensures set { IfOk result (λ new. SetsSecond (flat index.now) number (Some submit) (flat new)) }
    ensures count { OnOk result (count.new ≡ count.old + joining (place_in number_in number_in number number (flat index.now)) index.now) }
    ensures least { 1 ≤ length (flat index.now) → OnOk result (count.old < count.new) }
    ensures most { OnOk result (count.new ≤ count.old + 385) }
{
    Ok(index.with(Numbered { number, submit }, count)?)
}

pub(crate) fn without_number<A: Allocator + Copy>(
    index: &Index<A>,
    number: u64,
    count: &mut u32,
) -> Result<Index<A>, Memory>
    requires rising { NumbersRise (flat index.now) }
    requires there { is_some (second_of (flat index.now) number) ≡ true }
    requires capacity { count.old ≤ 768 }
    ensures set { IfOk result (λ new. SetsSecond (flat index.now) number None (flat new)) }
    ensures count { OnOk result (count.new ≡ count.old + touched (place_in number_in number_in number number (flat index.now)) index.now) }
    ensures least { OnOk result (count.old < count.new) }
    ensures most { OnOk result (count.new ≤ count.old + 256) }
{
    Ok(index.without(number, number, count)?)
}

pub(crate) fn set_second<A: Allocator + Copy>(
    index: &mut Index<A>,
    number: u64,
    submit: u64,
    count: &mut u32,
) -> Result<(), Memory>
    requires rising { NumbersRise (flat index.old) }
    requires there { is_some (second_of (flat index.old) number) ≡ true }
    requires capacity { count.old ≤ 768 }
    ensures set { OnOk result (SetsSecond (flat index.old) number (Some submit) (flat index.new)) }
    ensures kept { OnErr result (index.new ≡ index.old) }
    ensures count { OnOk result (CountsNoneOr (touched (place_in number_in number_in number number (flat index.old)) index.old) count.old count.new) }
    ensures least { OnOk result (count.old ≤ count.new) }
    ensures most { OnOk result (count.new ≤ count.old + 256) }
{
    index.exchange(Numbered { number, submit }, count)
}
