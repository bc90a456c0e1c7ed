ghost use Rattle.std.specs.Prelude.{◌≡◌, ◌⊎◌, ◌&&◌, max, nat_le, true};
ghost use Rattle.waiting_places.specs.Offers.{is_within};

use crate::offer::Offer;

/// What a search left behind: nobody from one place to another fits this offer.
#[derive(Clone, Copy)]
pub(crate) struct Refused {
    pub(crate) from: usize,
    pub(crate) to: usize,
    pub(crate) offer: Offer,
}

impl Refused {
    /// Nothing is known.
    pub(crate) fn unknown() -> Refused
        ensures { result.to ≡ 0 }
    {
        let offer = Offer {
            free: 0,
            extra: 0,
            window: 0,
        };
        Refused {
            from: 0,
            to: 0,
            offer,
        }
    }

    /// The place up to which it tells that nobody from this one on fits this offer.
    pub(crate) fn behind(&self, from: usize, offer: &Offer) -> usize
        ensures { (result ≡ from) ⊎ ((nat_le self.now.from from && is_within offer.now self.now.offer ≡ true) × (result ≡ max from self.now.to)) }
    {
        if self.covers(from, offer) {
            from.max(self.to)
        } else {
            from
        }
    }

    /// Whether it tells of this offer, from this place on.
    fn covers(&self, from: usize, offer: &Offer) -> bool
        ensures { result ≡ nat_le self.now.from from && is_within offer.now self.now.offer }
    {
        self.from <= from && offer.is_within(&self.offer)
    }
}
