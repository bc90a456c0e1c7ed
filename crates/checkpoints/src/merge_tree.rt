//! The merge tree of a run: its segments' parts, merged node by node on three levels. After an edit one
//! node of each level is merged again, and the topmost ones are few.

ghost use Rattle.std.specs.Prelude.{◌≡◌, ◌<◌, ◌^◌, List, IfOk, map, length};
ghost use Rattle.std.specs.Arc.{arc_value};
ghost use Rattle.metrics.specs.Part.{PartSums};
ghost use Rattle.checkpoints.specs.Merged.{AreFew, IsMerged};
ghost use Rattle.checkpoints.specs.Segment.{SegmentView};
ghost use Rattle.checkpoints.specs.Nodes.{parts_of, node_parts, AreNodesOf, ArePartsFrom, IsMergeTreeOf, AreFrom};

use crate::merged::merged;
use crate::nodes::{Level, Node, nodes_of, parts_in};
use crate::rebuilding::rebuilt;
use crate::segment::Segment;
use metrics::Part;
use std::alloc::{AllocError, Allocator};
use std::marker::Model;
use std::sync::Arc;
use swf_text::Memory;

#[derive(Drop)]
pub(crate) struct MergeTree<A: Allocator + Copy> {
    small: Vec<Node<A>, A>,
    middle: Vec<Node<A>, A>,
    large: Vec<Node<A>, A>,
}

impl<A: Allocator + Copy> Model for MergeTree<A> {
    ghost use Rattle.checkpoints.specs.Nodes.{MergeTreeView};

    ghost Value = { MergeTreeView };

    ghost view = { λ l. record { small = l.small.items; middle = l.middle.items; large = l.large.items } };
}

fn segment_parts<A: Allocator + Copy>(
    alloc: A,
    segments: &[Arc<Segment<A>, A>],
) -> Result<Vec<&Part<A>, A>, AllocError>
    ensures { IfOk result (λ parts. map (λ p. p.now) parts.items ≡ parts_of (map arc_value segments.now)) }
{
    let mut parts = Vec::with_capacity(alloc, segments.len())?;
    for segment in segments {
        parts.push(segment.part())?;
    }
    Ok(parts)
}

fn nodes_above<A: Allocator + Copy>(alloc: A, nodes: &[Node<A>]) -> Result<Vec<Node<A>, A>, Memory>
    requires { AreFew (node_parts nodes.now) }
    ensures { IfOk result (λ above. AreNodesOf (node_parts nodes.now) above.items) }
{
    let parts = parts_in(alloc, nodes)?;
    nodes_of(alloc, parts.as_slice())
}

fn rebuilt_above<A: Allocator + Copy>(
    alloc: A,
    old: &[Node<A>],
    below: &Level<A>,
) -> Result<Level<A>, Memory>
    requires few { AreFew (node_parts below.now.nodes.items) }
    requires old { (olds : List PartSums) × (length olds < 2 ^ 64) × AreNodesOf olds old.now × ArePartsFrom olds (node_parts below.now.nodes.items) below.now.places.items }
    ensures nodes { IfOk result (λ above. AreNodesOf (node_parts below.now.nodes.items) above.nodes.items) }
    ensures places { IfOk result (λ above. ArePartsFrom (node_parts old.now) (node_parts above.nodes.items) above.places.items) }
{
    let parts = parts_in(alloc, below.nodes.as_slice())?;
    rebuilt(alloc, old, parts.as_slice(), below.places.as_slice())
}

impl<A: Allocator + Copy> MergeTree<A> {
    pub(crate) fn of(alloc: A, segments: &[Arc<Segment<A>, A>]) -> Result<MergeTree<A>, Memory>
        requires { AreFew (parts_of (map arc_value segments.now)) }
        ensures { IfOk result (IsMergeTreeOf (parts_of (map arc_value segments.now))) }
    {
        let parts = segment_parts(alloc, segments)?;
        let small = nodes_of(alloc, parts.as_slice())?;
        let middle = nodes_above(alloc, small.as_slice())?;
        let large = nodes_above(alloc, middle.as_slice())?;
        Ok(MergeTree {
            small,
            middle,
            large,
        })
    }

    // Old nodes whose parts all were reused, side by side, are reused too.
    pub(crate) fn of_reused(
        alloc: A,
        old: &MergeTree<A>,
        segments: &[Arc<Segment<A>, A>],
        places: &[Option<usize>],
    ) -> Result<MergeTree<A>, Memory>
        requires few { AreFew (parts_of (map arc_value segments.now)) }
        requires old { (olds : List SegmentView) × (length olds < 2 ^ 64) × IsMergeTreeOf (parts_of olds) old.now × AreFrom olds (map arc_value segments.now) places.now }
        ensures { IfOk result (IsMergeTreeOf (parts_of (map arc_value segments.now))) }
    {
        let parts = segment_parts(alloc, segments)?;
        let small = rebuilt(alloc, old.small.as_slice(), parts.as_slice(), places)?;
        let middle = rebuilt_above(alloc, old.middle.as_slice(), &small)?;
        let large = rebuilt_above(alloc, old.large.as_slice(), &middle)?;
        let Level { nodes: small, .. } = small;
        let Level { nodes: middle, .. } = middle;
        let Level { nodes: large, .. } = large;
        Ok(MergeTree {
            small,
            middle,
            large,
        })
    }

    pub(crate) fn total(&self, alloc: A) -> Result<Part<A>, Memory>
        requires { (vs : List PartSums) × AreFew vs × IsMergeTreeOf vs self.now }
        ensures { IfOk result (λ part. (vs : List PartSums) → IsMergeTreeOf vs self.now → IsMerged vs part) }
    {
        let parts = parts_in(alloc, self.large.as_slice())?;
        merged(alloc, parts.as_slice())
    }
}
