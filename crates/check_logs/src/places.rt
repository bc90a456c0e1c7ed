// Places, where one growth after another is refused, and beside which a tree stands.
use refusing::Outcome;
use std::alloc::{Allocator, Global};
use waiting_places::{Offer, Places, Waits};

/// One who waits, with a size and an estimate.
#[derive(Clone, Copy, Debug, PartialEq, Eq)]
struct Guest {
    size: u64,
    estimate: u64,
}

impl Waits for Guest {
    ghost size = { λ guest. guest.size };

    ghost estimate = { λ guest. guest.estimate };

    fn size(&self) -> u64 {
        self.size
    }

    fn estimate(&self) -> u64 {
        self.estimate
    }
}

fn guest_of(size: u64, estimate: u64) -> Guest {
    Guest { size, estimate }
}

fn offer(free: u64, extra: u64, window: u64) -> Offer {
    Offer {
        free,
        extra,
        window,
    }
}

// So many guests of size 10 and estimate 100 come, where there is capacity for each.
fn fill<A: Allocator + Copy>(places: &mut Places<Guest, A>, count: u64) {
    for _ in 0..count {
        if places.spare() == 0 {
            return;
        }
        places.push(guest_of(10, 100));
    }
}

fn come<A: Allocator + Copy>(places: &mut Places<Guest, A>, size: u64, estimate: u64) {
    if places.spare() > 0 {
        places.push(guest_of(size, estimate));
    }
}

// 2,000 guests, beside whom a tree stands. At place 500 one of size 5 waits, at place 1,900 one of size 9
// and estimate 50.
fn two_thousand(alloc: Global) -> Option<Places<Guest, Global>> {
    let mut places = Places::new(alloc);
    places.reserve(2001).ok()?;
    fill(&mut places, 500);
    come(&mut places, 5, 1000);
    fill(&mut places, 1399);
    come(&mut places, 9, 50);
    fill(&mut places, 99);
    Some(places)
}

fn finds_both(places: &mut Places<Guest, Global>) -> bool {
    let wide = offer(9, 5, 60);
    places.len() == 2000
        && places.first_fit(0, &wide) == Some(500)
        && places.first_fit(501, &wide) == Some(1900)
        && places.first_fit(1901, &wide).is_none()
        && places.first_fit(501, &offer(9, 5, 49)).is_none()
        && places.first_fit(501, &wide) == Some(1900)
}

#[test]
fn two_of_two_thousand_fit(rt: HostRuntime) {
    let places = two_thousand(rt.alloc());
    assert!(rt; places.is_some_and(|mut places| finds_both(&mut places)));
}

/// Capacity for 1,200 guests, who then take no memory.
pub(crate) fn reserves<A: Allocator + Copy>(alloc: A) -> Outcome {
    let mut places = Places::new(alloc);
    if places.reserve(1200).is_err() {
        return Outcome::memory_if(places.spare() == 0);
    }
    fill(&mut places, 1200);
    Outcome::right_if(places.len() == 1200)
}

/// 64 guests, the first of whom leaves before capacity is reserved for 1,200 more.
pub(crate) fn closes_up<A: Allocator + Copy>(alloc: A) -> Outcome {
    let mut places = Places::new(alloc);
    if places.reserve(64).is_err() {
        return Outcome::memory_if(places.is_empty());
    }
    fill(&mut places, 64);
    places.take(0);
    if places.reserve(1200).is_err() {
        return Outcome::memory_if(places.first() == Some(1));
    }
    Outcome::right_if(places.first() == Some(0) && places.len() == 63)
}
