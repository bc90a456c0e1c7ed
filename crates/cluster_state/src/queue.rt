// The jobs that wait, each at a place of its own in order of arrival; and beside them, where the later ones
// are looked at by estimate, the candidates in which they are.
ghost use Rattle.std.specs.Prelude.{◌≡◌, ◌≤◌, ◌<◌, ◌+◌, ℕ, [], ◌∷◌, ◌++◌, OnOk, OnErr, IfSome, IsSome, Some, length, drop, find, remove, take, nat_eq, count_by, option_copied, slice_get};
ghost use Rattle.blocks.specs.Rows.{flat};
ghost use Rattle.scenarios.specs.Job.{IsWithinLimits};
ghost use Rattle.scenarios.specs.declared.order.Order.TheVariants.{Arrival, Shortest};
ghost use Rattle.waiting_places.specs.Offers.{holds};
ghost use Rattle.waiting_places.specs.Places.{IsFirst, at_place, waiting};
ghost use Rattle.cluster_state.specs.State.{without};
ghost use Rattle.cluster_state.specs.Candidates.{fits_offer, in_order, jobs_of};

use crate::candidate::Candidate;
use crate::candidates::{arrive, first_fit, leave_at, take_by_estimate};
use crate::waiter::Waiter;
use crate::waiting::Waiting;
use blocks::Blocks;
use scenarios::{Job, Order};
use std::alloc::Allocator;
use std::marker::Model;
use swf_text::Memory;
use waiting_places::{Offer, Places};

#[derive(Drop)]
pub(crate) struct Queue<A: Allocator + Copy> {
    order: Order,
    jobs: Places<Waiter, A>,
    candidates: Blocks<Candidate, A>,
}

impl<A: Allocator + Copy> Model for Queue<A> {
    ghost use Rattle.cluster_state.specs.Capacities.{QueueView};

    ghost Value = { QueueView };

    ghost use Rattle.cluster_state.specs.Parts.{queue_of, IsQueue};

    ghost view = { queue_of };

    ghost invariant = { IsQueue };
}

impl<A: Allocator + Copy> Queue<A> {
    pub(crate) fn new(alloc: A, order: Order) -> Queue<A>
        ensures { result ≡ record { order = order; jobs = []; places = [] } }
    {
        Queue {
            order,
            jobs: Places::new(alloc),
            candidates: Blocks::new(alloc),
        }
    }

    pub(crate) fn order(&self) -> Order
        ensures { result ≡ self.now.order }
    {
        self.order
    }

    pub(crate) fn len(&self) -> usize
        ensures { result ≡ length self.now.jobs }
    {
        self.jobs.len()
    }

    pub(crate) fn jobs(&self) -> Waiting<'_>
        ensures { result ≡ self.now.jobs }
    {
        Waiting::of(self.jobs.iter())
    }

    pub(crate) fn jobs_behind(&self, count: usize) -> Waiting<'_>
        ensures { result ≡ drop count self.now.jobs }
    {
        Waiting::of(self.jobs.iter_behind(count))
    }

    pub(crate) fn at(&self, place: usize) -> Option<&Job>
        ensures { option_copied result ≡ slice_get self.now.jobs place }
    {
        let mut before = place;
        for job in self.jobs() {
            if before == 0 {
                return Some(job);
            }
            before -= 1;
        }
        None
    }

    pub(crate) fn find(&self, number: u64) -> Option<Job>
        ensures { result ≡ find (λ j. nat_eq j.number number) self.now.jobs }
    {
        for job in self.jobs() {
            if job.number() == number {
                return Some(*job);
            }
        }
        None
    }

    pub(crate) fn get(&self, place: usize) -> Option<&Job>
        ensures job { option_copied result ≡ at_place self.now.places place }
        ensures candidates { waiting self.now.places ≡ in_order self.now.order self.now.jobs }
    {
        match self.order {
            Order::Arrival => job_in(&self.jobs, place),
            Order::Shortest => job_at(&self.candidates, place),
        }
    }

    pub(crate) fn place_behind(&self, count: usize) -> usize
        requires { count ≤ length self.now.jobs }
        ensures within { result ≤ length self.now.places }
        ensures front { self.now.order ≡ Arrival → waiting (take result self.now.places) ≡ take count self.now.jobs }
        ensures rest { self.now.order ≡ Arrival → waiting (drop result self.now.places) ≡ drop count self.now.jobs }
        ensures all { self.now.order ≡ Shortest → result ≡ 0 }
        ensures candidates { waiting self.now.places ≡ in_order self.now.order self.now.jobs }
    {
        match self.order {
            Order::Arrival => self.jobs.place_behind(count),
            Order::Shortest => 0,
        }
    }

    pub(crate) fn next_fit(&mut self, from: usize, offer: &Offer) -> Option<usize>
        ensures first { IsFirst (holds (fits_offer offer.now)) self.old.places from (length self.old.places) result }
        ensures same { self.new ≡ self.old }
        ensures candidates { waiting self.old.places ≡ in_order self.old.order self.old.jobs }
    {
        match self.order {
            Order::Arrival => self.jobs.first_fit(from, offer),
            Order::Shortest => first_fit(&mut self.candidates, from, offer),
        }
    }

    pub(crate) fn push(&mut self, job: Job) -> Result<(), Memory>
        ensures order { self.new.order ≡ self.old.order }
        ensures ok { OnOk result (self.new.jobs ≡ self.old.jobs ++ job ∷ []) }
        ensures err { OnErr result (self.new.jobs ≡ self.old.jobs) }
        ensures limits { IsWithinLimits job }
    {
        match self.order {
            Order::Arrival => {
                self.jobs.reserve(1)?;
                self.jobs.push(Waiter { job });
            }
            Order::Shortest => arrive(&mut self.jobs, &mut self.candidates, job)?,
        }
        Ok(())
    }

    pub(crate) fn remove(&mut self, number: u64)
        requires { count_by (λ j. nat_eq j.number number) self.old.jobs ≤ 1 }
        ensures order { self.new.order ≡ self.old.order }
        ensures jobs { self.new.jobs ≡ without number self.old.jobs }
    {
        if let Some(place) = place_numbered(self.jobs.as_slice(), number) {
            leave_at(self.order, &mut self.jobs, &mut self.candidates, place);
        }
    }

    pub(crate) fn take_head(&mut self)
        requires { (n : ℕ) → count_by (λ j. nat_eq j.number n) self.old.jobs ≤ 1 }
        ensures order { self.new.order ≡ self.old.order }
        ensures jobs { IfSome (slice_get self.old.jobs 0) (λ job. self.new.jobs ≡ without job.number self.old.jobs) }
    {
        if let Some(head) = self.jobs.first() {
            leave_at(self.order, &mut self.jobs, &mut self.candidates, head);
        }
    }

    pub(crate) fn take_at(&mut self, place: usize) -> usize
        requires once { (n : ℕ) → count_by (λ j. nat_eq j.number n) self.old.jobs ≤ 1 }
        requires there { IsSome (at_place self.old.places place) }
        ensures order { self.new.order ≡ self.old.order }
        ensures jobs { IfSome (at_place self.old.places place) (λ job. self.new.jobs ≡ without job.number self.old.jobs) }
        ensures rest { waiting (drop result self.new.places) ≡ waiting (drop (place + 1) self.old.places) }
    {
        match self.order {
            Order::Arrival => {
                self.jobs.take(place);
                place + 1
            }
            Order::Shortest => {
                take_by_estimate(&mut self.jobs, &mut self.candidates, place);
                place
            }
        }
    }

    pub(crate) fn allocator(&self) -> A {
        self.jobs.allocator()
    }
}

fn job_in<A: Allocator + Copy>(jobs: &Places<Waiter, A>, place: usize) -> Option<&Job>
    ensures { option_copied result ≡ at_place jobs.now.places place }
{
    Some(&jobs.get(place)?.job)
}

fn job_at<A: Allocator + Copy>(candidates: &Blocks<Candidate, A>, place: usize) -> Option<&Job>
    ensures { option_copied result ≡ slice_get (jobs_of (flat candidates.now.blocks)) place }
{
    Some(&candidates.at(place)?.job)
}

fn has_number(place: &Option<Waiter>, number: u64) -> bool
    ensures { result ≡ holds (λ j. nat_eq j.number number) place.now }
{
    match place {
        Some(waiter) => waiter.job.number() == number,
        None => false,
    }
}

fn place_numbered(places: &[Option<Waiter>], number: u64) -> Option<usize>
    ensures { IsFirst (holds (λ j. nat_eq j.number number)) places.now 0 (length places.now) result }
{
    for place in 0..places.len() {
        if has_number(&places[place], number) {
            return Some(place);
        }
    }
    None
}
