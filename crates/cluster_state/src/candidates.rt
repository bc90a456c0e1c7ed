// The candidates of the waiting jobs by estimate, beside the places at which they wait. In front stand those
// that end in time, which may take all that is free; those behind them may take no more than is extra. All
// candidates are made anew where those who wait move to other places.
ghost use Rattle.std.specs.Prelude.{◌≡◌, ◌≤◌, ◌<◌, ◌++◌, ℕ, [], ◌∷◌, IfSome, None, OnOk, OnErr, Some, length, map, remove, count_by, nat_eq, slice_get, slice_set};
ghost use Rattle.blocks.specs.Rows.{flat};
ghost use Rattle.scenarios.specs.declared.order.Order.TheVariants.{Shortest};
ghost use Rattle.waiting_places.specs.Offers.{holds};
ghost use Rattle.waiting_places.specs.Places.{IsFirst, at_place, waiting};
ghost use Rattle.cluster_state.specs.State.{without};
ghost use Rattle.cluster_state.specs.Candidates.{IsKept, fits_offer, jobs_of};

use crate::candidate::Candidate;
use crate::waiter::Waiter;
use blocks::{Blocks, Ranked};
use scenarios::{Job, Order};
use std::alloc::Allocator;
use swf_text::Memory;
use waiting_places::{Offer, Places};

pub(crate) fn first_fit<A: Allocator + Copy>(
    candidates: &mut Blocks<Candidate, A>,
    from: usize,
    offer: &Offer,
) -> Option<usize>
    ensures first { IsFirst (holds (fits_offer offer.now)) (map (λ job. Some job) (jobs_of (flat candidates.old.blocks))) from (length (map (λ job. Some job) (jobs_of (flat candidates.old.blocks)))) result }
    ensures same { candidates.new ≡ candidates.old }
{
    let longer = candidates.before(u128::from(offer.window) + 1, 0);
    if let Some(place) = candidates.first_light(from, longer, offer.free.max(offer.extra)) {
        return Some(place);
    }
    candidates.first_light(from.max(longer), candidates.len(), offer.extra)
}

fn fill<A: Allocator + Copy>(candidates: &mut Blocks<Candidate, A>, places: &[Option<Waiter>])
    requires none { candidates.old.blocks ≡ [] }
    requires capacity { length (waiting places.now) ≤ candidates.old.spare }
    ensures { IsKept Shortest places.now (flat candidates.new.blocks) }
{
    for place in 0..places.len() {
        let Some(waiter) = places[place] else {
            continue;
        };
        candidates.insert(Candidate {
            job: waiter.job,
            place,
        });
    }
}

fn make_place<A: Allocator + Copy>(
    jobs: &mut Places<Waiter, A>,
    candidates: &mut Blocks<Candidate, A>,
) -> Result<(), Memory>
    requires { IsKept Shortest jobs.old.places (flat candidates.old.blocks) }
    ensures kept { IsKept Shortest jobs.new.places (flat candidates.new.blocks) }
    ensures waiting { waiting jobs.new.places ≡ waiting jobs.old.places }
    ensures capacity { OnOk result (1 ≤ jobs.new.spare) }
{
    if 1 <= jobs.spare() {
        return Ok(());
    }
    let mut made = Blocks::new(jobs.allocator());
    made.reserve(jobs.len())?;
    jobs.reserve(1)?;
    fill(&mut made, jobs.as_slice());
    *candidates = made;
    Ok(())
}

pub(crate) fn arrive<A: Allocator + Copy>(
    jobs: &mut Places<Waiter, A>,
    candidates: &mut Blocks<Candidate, A>,
    job: Job,
) -> Result<(), Memory>
    requires { IsKept Shortest jobs.old.places (flat candidates.old.blocks) }
    ensures kept { IsKept Shortest jobs.new.places (flat candidates.new.blocks) }
    ensures ok { OnOk result (waiting jobs.new.places ≡ waiting jobs.old.places ++ job ∷ []) }
    ensures err { OnErr result (waiting jobs.new.places ≡ waiting jobs.old.places) }
{
    make_place(jobs, candidates)?;
    candidates.reserve(1)?;
    let place = jobs.push(Waiter { job });
    candidates.insert(Candidate { job, place });
    Ok(())
}

pub(crate) fn leave_at<A: Allocator + Copy>(
    order: Order,
    jobs: &mut Places<Waiter, A>,
    candidates: &mut Blocks<Candidate, A>,
    place: usize,
)
    requires kept { IsKept order jobs.old.places (flat candidates.old.blocks) }
    requires once { IfSome (at_place jobs.old.places place) (λ x. count_by (λ j. nat_eq j.number x.number) (waiting jobs.old.places) ≤ 1) }
    ensures kept { IsKept order jobs.new.places (flat candidates.new.blocks) }
    ensures places { jobs.new.places ≡ slice_set jobs.old.places place None }
{
    let Some(waiter) = jobs.take(place) else {
        return;
    };
    match order {
        Order::Arrival => {}
        Order::Shortest => {
            let candidate = Candidate {
                job: waiter.job,
                place,
            };
            candidates.remove(candidate.major(), candidate.minor());
        }
    }
}

pub(crate) fn take_by_estimate<A: Allocator + Copy>(
    jobs: &mut Places<Waiter, A>,
    candidates: &mut Blocks<Candidate, A>,
    place: usize,
)
    requires kept { IsKept Shortest jobs.old.places (flat candidates.old.blocks) }
    requires once { (n : ℕ) → count_by (λ j. nat_eq j.number n) (waiting jobs.old.places) ≤ 1 }
    requires there { place < length (jobs_of (flat candidates.old.blocks)) }
    ensures kept { IsKept Shortest jobs.new.places (flat candidates.new.blocks) }
    ensures jobs { IfSome (slice_get (jobs_of (flat candidates.old.blocks)) place) (λ job. waiting jobs.new.places ≡ without job.number (waiting jobs.old.places)) }
    ensures candidates { jobs_of (flat candidates.new.blocks) ≡ remove (jobs_of (flat candidates.old.blocks)) place }
{
    let Some(candidate) = candidates.at(place) else {
        return;
    };
    let at = candidate.place;
    leave_at(Order::Shortest, jobs, candidates, at);
}
