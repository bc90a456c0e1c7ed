ghost use Rattle.std.specs.Prelude.{◌≡◌, ◌-◌, ◌^◌, ◌<◌, ◌&&◌, min, nat_le};

use crate::waits::Waits;

/// A size and an estimate; those beyond `u32::MAX` as that.
#[derive(Clone, Copy)]
pub(crate) struct Corner {
    pub(crate) size: u32,
    pub(crate) estimate: u32,
}

fn saturated(number: u64) -> u32
    ensures { result ≡ min number (2 ^ 32 - 1) }
{
    u32::try_from(number).unwrap_or(u32::MAX)
}

/// How many leading bits of a size tell its class, so that there are at most as many classes as corners from the
/// least size to the greatest.
pub(crate) fn class_bits(least: u32, greatest: u32) -> u32
    ensures { result < 32 }
{
    let octaves = least
        .leading_zeros()
        .saturating_sub(greatest.leading_zeros());
    match octaves {
        0 => 7,
        1 => 6,
        2..=3 => 5,
        4..=7 => 4,
        8..=15 => 3,
        16..=31 => 2,
        _ => 1,
    }
}

/// Whether two sizes agree in so many bits, from the highest of the first on.
pub(crate) fn are_alike(first: u32, second: u32, bits: u32) -> bool {
    (first ^ second).leading_zeros() >= first.leading_zeros().saturating_add(bits)
}

impl Corner {
    pub(crate) fn of<T: Waits>(item: &T) -> Corner
        ensures size { result.size ≡ min (T.size item.now) (2 ^ 32 - 1) }
        ensures estimate { result.estimate ≡ min (T.estimate item.now) (2 ^ 32 - 1) }
    {
        Corner {
            size: saturated(item.size()),
            estimate: saturated(item.estimate()),
        }
    }

    pub(crate) fn is_below(&self, other: &Corner) -> bool
        ensures { result ≡ nat_le self.now.size other.now.size && nat_le self.now.estimate other.now.estimate }
    {
        self.size <= other.size && self.estimate <= other.estimate
    }

    pub(crate) fn least_of(&self, other: &Corner) -> Corner
        ensures size { result.size ≡ min self.now.size other.now.size }
        ensures estimate { result.estimate ≡ min self.now.estimate other.now.estimate }
    {
        Corner {
            size: self.size.min(other.size),
            estimate: self.estimate.min(other.estimate),
        }
    }
}
