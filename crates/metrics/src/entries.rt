//! Lists of entries, each with a key, by rising key.

// Keys that come in their order are found at the end, with no search. Two lists are merged into one in which the values
// at a key of both are what `plus` makes of them; there is none where it makes nothing.
ghost use Rattle.std.specs.Prelude.{◌≡◌, true, is_none, IfOk, IfSome, Some, None};
ghost use Rattle.std.specs.List.Sorted.{IsStrictlySortedBy};
ghost use Rattle.std.specs.Map.{keys_of};
ghost use Rattle.metrics.specs.Entries.{CanMerge, IsFound, IsMerge};

use std::alloc::{AllocError, Allocator};
use std::cmp::Ordering;

pub(crate) fn find<K: Ord + Copy, V>(entries: &[(K, V)], key: K) -> Result<usize, usize>
    requires { IsStrictlySortedBy K.cmp (keys_of entries.now) }
    ensures { IsFound K.cmp key entries.now result }
{
    let Some(last) = entries.last() else {
        return Err(0);
    };
    match last.0.cmp(&key) {
        Ordering::Less => Err(entries.len()),
        Ordering::Equal => Ok(entries.len() - 1),
        Ordering::Greater => entries.binary_search_by_key(&key, |entry| entry.0),
    }
}

pub(crate) fn merge<K: Ord + Copy, V: Copy, F: Fn(V, V) -> Option<V>, A: Allocator + Copy>(
    alloc: A,
    left: &[(K, V)],
    right: &[(K, V)],
    plus: F,
) -> Result<Option<Vec<(K, V), A>>, AllocError>
    requires { CanMerge K.cmp (F.pre plus) left.now right.now }
    ensures some { IfOk result (λ merged. IfSome merged (λ entries. IsMerge K.cmp (λ a b c. F.post plus a b (Some c)) left.now right.now entries.items)) }
    ensures none { IfOk result (λ merged. is_none merged ≡ true → (a : V) × (b : V) × F.post plus a b None) }
{
    let mut entries = Vec::with_capacity(alloc, left.len().saturating_add(right.len()))?;
    let mut i = 0;
    let mut j = 0;
    'both: while i < left.len() && j < right.len() {
        let (x, y) = (left[i], right[j]);
        match x.0.cmp(&y.0) {
            Ordering::Less => {
                entries.push(x)?;
                i += 1;
            }
            Ordering::Greater => {
                entries.push(y)?;
                j += 1;
            }
            Ordering::Equal => {
                let Some(sum) = plus(x.1, y.1) else {
                    return Ok(None);
                };
                entries.push((x.0, sum))?;
                i += 1;
                j += 1;
            }
        }
    }
    entries.extend_from_slice(&left[i..])?;
    entries.extend_from_slice(&right[j..])?;
    Ok(Some(entries))
}
