// The frontier of a node is made anew from those of the two below it, and that of a leaf from those who wait at its
// places, where it is stale: one has left the leaf, or what is below the node has been made anew and has changed.
ghost use Rattle.std.specs.Prelude.{◌≡◌, ◌≢◌, ℕ, ◌+◌, ◌-◌, ◌*◌, ◌/◌, ◌≤◌, ◌<◌, length, slice_index_or, take, Some, None};
ghost use Rattle.waiting_places.specs.Bounds.{IsBelow, Keeps};
ghost use Rattle.waiting_places.specs.Tree.{IsTree, covered, halved, leaf_of, node_at};

use crate::frontier::Frontier;
use crate::waits::Waits;

/// How many places a leaf has.
pub(crate) const SPAN: usize = 64;

/// A leaf and each node above it come to bound those too whom a frontier bounds.
fn lower(nodes: &mut [Frontier], leaf: usize, frontier: &Frontier)
    requires { leaf < length nodes.old }
    ensures len { length nodes.new ≡ length nodes.old }
    ensures kept { (k : ℕ) → Keeps (node_at nodes.old k) (node_at nodes.new k) }
    ensures met { (times : ℕ) → 1 ≤ halved times leaf → Keeps frontier.now (node_at nodes.new (halved times leaf)) }
{
    let mut node = leaf;
    while node > 0 {
        nodes[node].lower(frontier);
        node /= 2;
    }
}

/// The node above one is stale where that one isn't what it was.
pub(crate) fn outdate_above(nodes: &mut [Frontier], node: usize, old: &Frontier)
    requires { node < length nodes.old }
    ensures len { length nodes.new ≡ length nodes.old }
    ensures kept { (k : ℕ) → Keeps (node_at nodes.old k) (node_at nodes.new k) }
{
    if !nodes[node].has_same_corners(old) {
        nodes[node / 2].set_stale();
    }
}

pub(crate) fn raise(nodes: &mut [Frontier], node: usize)
    requires some { 1 ≤ node }
    requires inner { 2 * node + 1 < length nodes.old }
    ensures len { length nodes.new ≡ length nodes.old }
    ensures first { Keeps (node_at nodes.old (2 * node)) (node_at nodes.new node) }
    ensures second { Keeps (node_at nodes.old (2 * node + 1)) (node_at nodes.new node) }
    ensures others { (k : ℕ) → k ≢ node → node_at nodes.new k ≡ node_at nodes.old k }
{
    let (above, below) = nodes.split_at_mut(2 * node);
    above[node].set_both(&below[0], &below[1]);
}

pub(crate) fn raise_leaf<T: Waits>(nodes: &mut [Frontier], places: &[Option<T>], leaf: usize)
    requires { length nodes.old / 2 + leaf < length nodes.old }
    ensures len { length nodes.new ≡ length nodes.old }
    ensures here { (place : ℕ) (x : T) → slice_index_or places.now place None ≡ Some x → place / 64 ≡ leaf → IsBelow (node_at nodes.new (length nodes.old / 2 + leaf)) (T.size x) (T.estimate x) }
    ensures others { (k : ℕ) → k ≢ length nodes.old / 2 + leaf → node_at nodes.new k ≡ node_at nodes.old k }
{
    let from = (leaf * SPAN).min(places.len());
    let to = (from + SPAN).min(places.len());
    let node = nodes.len() / 2 + leaf;
    let here = &places[from..to];
    nodes[node].set(here);
}

/// One has come to the last place: a leaf comes to the tree with one at the last of its places.
pub(crate) fn cover<T: Waits>(nodes: &mut [Frontier], places: &[Option<T>])
    requires some { 1 ≤ length places.now }
    requires tree { 1 ≤ length nodes.old → IsTree T.size T.estimate nodes.old (covered (take (length places.now - 1) places.now)) }
    requires capacity { 1 ≤ length nodes.old → length places.now ≤ 32 * length nodes.old }
    ensures len { length nodes.new ≡ length nodes.old }
    ensures tree { 1 ≤ length nodes.new → IsTree T.size T.estimate nodes.new (covered places.now) }
{
    if nodes.is_empty() || places.len() % SPAN != 0 {
        return;
    }
    let from = places.len() - SPAN;
    let mut frontier = Frontier::new();
    frontier.set(&places[from..]);
    let leaf = nodes.len() / 2 + from / SPAN;
    lower(nodes, leaf, &frontier);
}

/// One has left this place.
pub(crate) fn outdate_leaf(nodes: &mut [Frontier], place: usize)
    requires { 1 ≤ length nodes.old → leaf_of (length nodes.old) place < length nodes.old }
    ensures len { length nodes.new ≡ length nodes.old }
    ensures kept { (k : ℕ) → Keeps (node_at nodes.old k) (node_at nodes.new k) }
{
    if nodes.is_empty() {
        return;
    }
    let leaf = nodes.len() / 2 + place / SPAN;
    nodes[leaf].set_stale();
}
