ghost use Rattle.std.specs.Prelude.{◌≡◌, Option};
ghost use Rattle.waiting_places.specs.Offers.{fits, holds, is_within};

use crate::waits::Waits;

/// What one behind the first who waits is offered: how much is free, how much of that the first does
/// not need, and for how long it does not need the rest.
///
/// EASY backfilling lets one behind the first start where it delays the first at no time: it ends in
/// time, or takes what the first does not need (Mu'alem and Feitelson, IEEE TPDS 12(6), 2001).
#[derive(Clone, Copy, Debug, PartialEq, Eq)]
pub struct Offer {
    pub free: u64,
    pub extra: u64,
    pub window: u64,
}

impl Offer {
    /// Whether it fits: it takes no more than is extra, or no more than is free and no longer than the
    /// window.
    pub fn fits<T: Waits>(&self, item: &T) -> bool
        ensures { result ≡ fits T.size T.estimate self.now item.now }
    {
        let size = item.size();
        size <= self.extra || (size <= self.free && item.estimate() <= self.window)
    }

    pub(crate) fn is_within(&self, other: &Offer) -> bool
        ensures { result ≡ is_within self.now other.now }
    {
        self.free <= other.free && self.extra <= other.extra && self.window <= other.window
    }
}

pub(crate) fn holds<T: Waits>(place: &Option<T>, offer: &Offer) -> bool
    ensures { result ≡ holds (fits T.size T.estimate offer.now) place.now }
{
    match place {
        Some(item) => offer.fits(item),
        None => false,
    }
}
