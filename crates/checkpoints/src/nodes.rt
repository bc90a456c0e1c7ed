//! Nodes of the merge tree: parts that stand side by side, merged into one, so that after an edit only
//! the nodes over a new part are merged again.

ghost use Rattle.std.specs.Prelude.{◌≡◌, ◌++◌, List, Option, IfOk, OnOk, map, length};
ghost use Rattle.metrics.specs.Part.{PartSums};
ghost use Rattle.checkpoints.specs.Merged.{AreFew, IsMerged};
ghost use Rattle.checkpoints.specs.Nodes.{AreNodesOf, ArePartsFrom, node_parts};

use crate::merged::merged;
use metrics::Part;
use std::alloc::{AllocError, Allocator};
use std::marker::Model;
use std::sync::Arc;
use swf_text::Memory;

/// The most parts of a new node.
const FULL: usize = 8;

#[derive(Drop)]
pub(crate) struct Node<A: Allocator + Copy> {
    count: usize,
    part: Arc<Part<A>, A>,
}

impl<A: Allocator + Copy> Model for Node<A> {
    ghost use Rattle.std.specs.Arc.{arc_value};
    ghost use Rattle.checkpoints.specs.Nodes.{NodeView};

    ghost Value = { NodeView };

    ghost view = { λ g. record { count = g.count; part = arc_value g.part } };
}

impl<A: Allocator + Copy> Node<A> {
    fn of(alloc: A, parts: &[&Part<A>]) -> Result<Node<A>, Memory>
        requires { AreFew (map (λ p. p.now) parts.now) }
        ensures count { IfOk result (λ node. node.count ≡ length parts.now) }
        ensures part { IfOk result (λ node. IsMerged (map (λ p. p.now) parts.now) node.part) }
    {
        let part = merged(alloc, parts)?;
        Ok(Node {
            count: parts.len(),
            part: Arc::new(alloc, part)?,
        })
    }

    pub(crate) fn count(&self) -> usize
        ensures { result ≡ self.now.count }
    {
        self.count
    }

    pub(crate) fn share(&self) -> Result<Node<A>, Memory>
        ensures { IfOk result (λ node. node ≡ self.now) }
    {
        Ok(Node {
            count: self.count,
            part: self.part.clone()?,
        })
    }
}

// Nodes one after another, and the place of each among old ones where it was reused.
#[derive(Drop)]
pub(crate) struct Level<A: Allocator + Copy> {
    pub(crate) nodes: Vec<Node<A>, A>,
    pub(crate) places: Vec<Option<usize>, A>,
}

pub(crate) fn parts_in<A: Allocator + Copy>(
    alloc: A,
    nodes: &[Node<A>],
) -> Result<Vec<&Part<A>, A>, AllocError>
    ensures { IfOk result (λ parts. map (λ p. p.now) parts.items ≡ node_parts nodes.now) }
{
    let mut parts = Vec::with_capacity(alloc, nodes.len())?;
    for node in nodes {
        parts.push(&*node.part)?;
    }
    Ok(parts)
}

pub(crate) fn add_nodes<A: Allocator + Copy>(
    alloc: A,
    parts: &[&Part<A>],
    so_far: &mut Level<A>,
) -> Result<(), Memory>
    requires { AreFew (map (λ p. p.now) parts.now) }
    ensures nodes { OnOk result ((vs : List PartSums) → AreNodesOf vs so_far.old.nodes.items → AreNodesOf (vs ++ map (λ p. p.now) parts.now) so_far.new.nodes.items) }
    ensures places { OnOk result ((olds : List PartSums) → ArePartsFrom olds (node_parts so_far.old.nodes.items) so_far.old.places.items → ArePartsFrom olds (node_parts so_far.new.nodes.items) so_far.new.places.items) }
{
    let mut at = 0;
    'nodes: while at < parts.len() {
        let end = at + FULL.min(parts.len() - at);
        so_far.nodes.push(Node::of(alloc, &parts[at..end])?)?;
        so_far.places.push(None)?;
        at = end;
    }
    Ok(())
}

pub(crate) fn nodes_of<A: Allocator + Copy>(
    alloc: A,
    parts: &[&Part<A>],
) -> Result<Vec<Node<A>, A>, Memory>
    requires { AreFew (map (λ p. p.now) parts.now) }
    ensures { IfOk result (λ nodes. AreNodesOf (map (λ p. p.now) parts.now) nodes.items) }
{
    let mut so_far = Level {
        nodes: Vec::new(alloc),
        places: Vec::new(alloc),
    };
    add_nodes(alloc, parts, &mut so_far)?;
    let Level { nodes, .. } = so_far;
    Ok(nodes)
}
