ghost use Rattle.std.specs.Prelude.{◌↔◌, IsTrue};
ghost use Rattle.std.specs.List.Sorted.{IsNonDecreasing};
ghost use Rattle.rejoin.specs.Reused.{InStretch};
ghost use Rattle.rejoin.specs.Tested.{NoneWithin};

use crate::search::least_from;

fn in_stretch(first: u64, next: Option<u64>, second: u64) -> bool
    ensures { IsTrue result ↔ InStretch first next second }
{
    match next {
        None => first <= second,
        Some(end) => first <= second && second < end,
    }
}

pub(crate) fn none_within(submits: &[u64], first: u64, next: Option<u64>) -> bool
    requires { IsNonDecreasing submits.now }
    ensures { IsTrue result ↔ NoneWithin submits.now first next }
{
    match least_from(submits, first) {
        None => true,
        Some(second) => !in_stretch(first, next, second),
    }
}
