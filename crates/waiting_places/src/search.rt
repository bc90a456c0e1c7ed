ghost use Rattle.std.specs.Prelude.{◌≡◌, ◌+◌, ◌*◌, ◌≤◌, ◌<◌, is_some, length, max, nat_le};
ghost use Rattle.waiting_places.specs.Offers.{fits, holds};
ghost use Rattle.waiting_places.specs.Places.{IsFirst};
ghost use Rattle.waiting_places.specs.Tree.{IsPart, IsTree, covered};

use crate::frontier::Frontier;
use crate::offer::{Offer, holds};
use crate::tree::{SPAN, outdate_above, raise, raise_leaf};
use crate::waits::Waits;

pub(crate) fn first_some<T: Waits>(places: &[Option<T>], from: usize) -> Option<usize>
    ensures { IsFirst is_some places.now from (length places.now) result }
{
    for place in from..places.len() {
        if places[place].is_some() {
            return Some(place);
        }
    }
    None
}

/// A node, and the leaves below it: so many from this one on, counted from 0.
#[derive(Clone, Copy)]
pub(crate) struct Part {
    pub(crate) node: usize,
    pub(crate) low: usize,
    pub(crate) span: usize,
}

/// What is looked for: a place from this one on where one waits who fits the offer.
#[derive(Clone, Copy)]
pub(crate) struct Search {
    pub(crate) from: usize,
    pub(crate) offer: Offer,
}

fn takes_at_most<T: Waits>(place: &Option<T>, most: u64) -> bool
    ensures { result ≡ holds (λ item. nat_le (T.size item) most) place.now }
{
    match place {
        Some(item) => item.size() <= most,
        None => false,
    }
}

fn first_in<T: Waits>(places: &[Option<T>], from: usize, to: usize, offer: &Offer) -> Option<usize>
    ensures { IsFirst (holds (fits T.size T.estimate offer.now)) places.now from to result }
{
    let most = offer.free.max(offer.extra);
    for place in from..to.min(places.len()) {
        if takes_at_most(&places[place], most) && holds(&places[place], offer) {
            return Some(place);
        }
    }
    None
}

fn renew_leaf<T: Waits>(nodes: &mut [Frontier], places: &[Option<T>], leaf: usize)
    requires tree { IsTree T.size T.estimate nodes.old places.now }
    requires leaf { 2 * (leaf + 1) ≤ length nodes.old }
    ensures tree { IsTree T.size T.estimate nodes.new places.now }
    ensures len { length nodes.new ≡ length nodes.old }
{
    let node = nodes.len() / 2 + leaf;
    let old = nodes[node];
    if old.is_stale() {
        raise_leaf(nodes, places, leaf);
        outdate_above(nodes, node, &old);
    }
}

fn renew<T: Waits>(nodes: &mut [Frontier], places: &[Option<T>], node: usize)
    requires tree { IsTree T.size T.estimate nodes.old places.now }
    requires some { 1 ≤ node }
    requires inner { 2 * node + 1 < length nodes.old }
    ensures tree { IsTree T.size T.estimate nodes.new places.now }
    ensures len { length nodes.new ≡ length nodes.old }
{
    let old = nodes[node];
    if old.is_stale() {
        raise(nodes, node);
        outdate_above(nodes, node, &old);
    }
}

fn first_in_leaf<T: Waits>(
    nodes: &mut [Frontier],
    places: &[Option<T>],
    leaf: usize,
    search: &Search,
) -> Option<usize>
    requires tree { IsTree T.size T.estimate nodes.old places.now }
    requires leaf { 2 * (leaf + 1) ≤ length nodes.old }
    ensures tree { IsTree T.size T.estimate nodes.new places.now }
    ensures len { length nodes.new ≡ length nodes.old }
    ensures first { IsFirst (holds (fits T.size T.estimate search.now.offer)) places.now (max search.now.from (64 * leaf)) (64 * (leaf + 1)) result }
{
    let from = search.from.max(SPAN * leaf);
    if let Some(place) = first_in(places, from, SPAN * (leaf + 1), &search.offer) {
        return Some(place);
    }
    renew_leaf(nodes, places, leaf);
    None
}

/// The first place below a node, from `search.from` on, where one waits who fits the offer.
#[cycle(first_below)]
fn first_below<T: Waits>(
    nodes: &mut [Frontier],
    places: &[Option<T>],
    part: &Part,
    search: &Search,
) -> Option<usize>
    requires tree { IsTree T.size T.estimate nodes.old places.now }
    requires part { IsPart (length nodes.old) part.now.node part.now.low part.now.span }
    ensures tree { IsTree T.size T.estimate nodes.new places.now }
    ensures len { length nodes.new ≡ length nodes.old }
    ensures first { IsFirst (holds (fits T.size T.estimate search.now.offer)) places.now (max search.now.from (64 * part.now.low)) (64 * (part.now.low + part.now.span)) result }
{
    if SPAN * (part.low + part.span) <= search.from {
        return None;
    }
    if !nodes[part.node].may_fit(&search.offer) {
        return None;
    }
    first_within(nodes, places, part, search)
}

#[cycle(first_below)]
fn first_within<T: Waits>(
    nodes: &mut [Frontier],
    places: &[Option<T>],
    part: &Part,
    search: &Search,
) -> Option<usize>
    requires tree { IsTree T.size T.estimate nodes.old places.now }
    requires part { IsPart (length nodes.old) part.now.node part.now.low part.now.span }
    ensures tree { IsTree T.size T.estimate nodes.new places.now }
    ensures len { length nodes.new ≡ length nodes.old }
    ensures first { IsFirst (holds (fits T.size T.estimate search.now.offer)) places.now (max search.now.from (64 * part.now.low)) (64 * (part.now.low + part.now.span)) result }
{
    if part.span == 1 {
        return first_in_leaf(nodes, places, part.low, search);
    }
    let span = part.span / 2;
    let first = Part {
        node: 2 * part.node,
        low: part.low,
        span,
    };
    if let Some(place) = first_below(nodes, places, &first, search) {
        return Some(place);
    }
    let second = Part {
        node: 2 * part.node + 1,
        low: part.low + span,
        span,
    };
    if let Some(place) = first_below(nodes, places, &second, search) {
        return Some(place);
    }
    renew(nodes, places, part.node);
    None
}

// It looks in what is left of a leaf, and then in the tree.
fn first_in_tree<T: Waits>(
    nodes: &mut [Frontier],
    places: &[Option<T>],
    from: usize,
    offer: &Offer,
) -> Option<usize>
    requires { IsTree T.size T.estimate nodes.old places.now }
    ensures tree { IsTree T.size T.estimate nodes.new places.now }
    ensures len { length nodes.new ≡ length nodes.old }
    ensures first { IsFirst (holds (fits T.size T.estimate offer.now)) places.now from (length places.now) result }
{
    if from >= places.len() {
        return None;
    }
    let leaf = from / SPAN;
    let here = Part {
        node: nodes.len() / 2 + leaf,
        low: leaf,
        span: 1,
    };
    let rest = Search {
        from,
        offer: *offer,
    };
    if let Some(place) = first_below(nodes, places, &here, &rest) {
        return Some(place);
    }
    let root = Part {
        node: 1,
        low: 0,
        span: nodes.len() / 2,
    };
    let search = Search {
        from: SPAN * (leaf + 1),
        offer: *offer,
    };
    first_below(nodes, places, &root, &search)
}

/// The first place from one on where one waits who fits the offer, in the tree or behind its last leaf.
pub(crate) fn first_from<T: Waits>(
    nodes: &mut [Frontier],
    places: &[Option<T>],
    from: usize,
    offer: &Offer,
) -> Option<usize>
    requires { 1 ≤ length nodes.old → IsTree T.size T.estimate nodes.old (covered places.now) }
    ensures tree { 1 ≤ length nodes.new → IsTree T.size T.estimate nodes.new (covered places.now) }
    ensures len { length nodes.new ≡ length nodes.old }
    ensures first { IsFirst (holds (fits T.size T.estimate offer.now)) places.now from (length places.now) result }
{
    if nodes.is_empty() {
        return first_in(places, from, places.len(), offer);
    }
    let end = SPAN * (places.len() / SPAN);
    if let Some(place) = first_in_tree(nodes, &places[..end], from, offer) {
        return Some(place);
    }
    first_in(places, from.max(end), places.len(), offer)
}
