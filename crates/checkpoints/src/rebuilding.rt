//! A level of the merge tree made anew, in which old nodes are reused.

// Old nodes whose parts all were reused side by side are reused, behind new nodes of the parts before them.
// Of the `NewNodes` so far, `count` is how many of the new parts they have, `place` the new place from which
// on the next old parts are looked for, and `first` the place of the next old node's first part among the
// old ones.
ghost use Rattle.std.specs.Prelude.{◌≡◌, ◌+◌, ◌≤◌, ◌<◌, ◌^◌, [], ◌∷◌, ◌↔◌, List, Some, IsTrue, IfSome, IfOk, OnOk, map, take, drop, length, slice_get};
ghost use Rattle.metrics.specs.Part.{PartSums};
ghost use Rattle.checkpoints.specs.Merged.{AreFew};
ghost use Rattle.checkpoints.specs.Nodes.{NodeView, AreNodesOf, ArePartsFrom, AreInRow, node_parts};
ghost use Rattle.checkpoints.specs.Rebuilding.{IsRebuilding};

use crate::nodes::{Level, Node, add_nodes};
use metrics::Part;
use std::alloc::Allocator;
use swf_text::Memory;

#[derive(Drop)]
struct NewNodes<A: Allocator + Copy> {
    level: Level<A>,
    count: usize,
    place: usize,
    first: usize,
}

fn next_place(places: &[Option<usize>], from: usize, first: usize) -> usize
    requires { from ≤ length places.now }
    ensures from { from ≤ result }
    ensures within { result ≤ length places.now }
{
    for at in from..places.len() {
        if places[at].is_some_and(|old| first <= old) {
            return at;
        }
    }
    places.len()
}

fn are_in_row(places: &[Option<usize>], first: usize) -> bool
    requires { first + length places.now < 2 ^ 64 }
    ensures { IsTrue result ↔ AreInRow first places.now }
{
    match places {
        [] => true,
        [place, rest @ ..] => *place == Some(first) && are_in_row(rest, first + 1),
    }
}

fn end_of_node(places: &[Option<usize>], place: usize, first: usize, count: usize) -> Option<usize>
    requires place { place ≤ length places.now }
    requires few { first + count < 2 ^ 64 }
    ensures { IfSome result (λ end. (end ≡ place + count) × (end ≤ length places.now) × AreInRow first (take count (drop place places.now))) }
{
    if places.len() - place < count {
        return None;
    }
    let end = place + count;
    if !are_in_row(&places[place..end], first) {
        return None;
    }
    Some(end)
}

fn pass_node<A: Allocator + Copy>(
    alloc: A,
    at: usize,
    node: &Node<A>,
    parts: &[&Part<A>],
    places: &[Option<usize>],
    so_far: &mut NewNodes<A>,
) -> Result<(), Memory>
    requires few { AreFew (map (λ p. p.now) parts.now) }
    requires old { (left : List NodeView) × IsRebuilding (map (λ p. p.now) parts.now) places.now (node.now ∷ left) so_far.old.level.nodes.items so_far.old.count so_far.old.place so_far.old.first }
    ensures nodes { OnOk result ((left : List NodeView) → IsRebuilding (map (λ p. p.now) parts.now) places.now (node.now ∷ left) so_far.old.level.nodes.items so_far.old.count so_far.old.place so_far.old.first
        → IsRebuilding (map (λ p. p.now) parts.now) places.now left so_far.new.level.nodes.items so_far.new.count so_far.new.place so_far.new.first) }
    ensures places { OnOk result ((olds : List PartSums) → slice_get olds at ≡ Some node.now.part → ArePartsFrom olds (node_parts so_far.old.level.nodes.items) so_far.old.level.places.items
        → ArePartsFrom olds (node_parts so_far.new.level.nodes.items) so_far.new.level.places.items) }
{
    let first = so_far.first;
    let count = node.count();
    so_far.first = first + count;
    so_far.place = next_place(places, so_far.place, first);
    let Some(end) = end_of_node(places, so_far.place, first, count) else {
        return Ok(());
    };
    let new = &parts[so_far.count..so_far.place];
    add_nodes(alloc, new, &mut so_far.level)?;
    so_far.level.nodes.push(node.share()?)?;
    so_far.level.places.push(Some(at))?;
    so_far.count = end;
    so_far.place = end;
    Ok(())
}

pub(crate) fn rebuilt<A: Allocator + Copy>(
    alloc: A,
    old: &[Node<A>],
    parts: &[&Part<A>],
    places: &[Option<usize>],
) -> Result<Level<A>, Memory>
    requires few { AreFew (map (λ p. p.now) parts.now) }
    requires old { IsRebuilding (map (λ p. p.now) parts.now) places.now old.now [] 0 0 0 }
    ensures nodes { IfOk result (λ level. AreNodesOf (map (λ p. p.now) parts.now) level.nodes.items) }
    ensures places { IfOk result (λ level. ArePartsFrom (node_parts old.now) (node_parts level.nodes.items) level.places.items) }
{
    let mut so_far = NewNodes {
        level: Level {
            nodes: Vec::new(alloc),
            places: Vec::new(alloc),
        },
        count: 0,
        place: 0,
        first: 0,
    };
    for at in 0..old.len() {
        pass_node(alloc, at, &old[at], parts, places, &mut so_far)?;
    }
    let NewNodes {
        mut level,
        count,
        ..
    } = so_far;
    add_nodes(alloc, &parts[count..], &mut level)?;
    Ok(level)
}
