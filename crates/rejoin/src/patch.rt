// The new segments so far, and the engine that works those that are not old ones. Where `last_reused`, it has
// stayed behind; otherwise `ledger` has in what the starts of both simulations differ. `started` counts those
// since the last snapshot noted, `places` has the place of each reused segment among the old ones, and
// `handled` counts the event seconds worked, except those of an engine that is still at work.
ghost use Rattle.std.specs.Prelude.{◌≡◌, ℕ, ◌≤◌, ◌<◌, ◌+◌, ◌^◌, ◌∷◌, ◌++◌, [], Some, true, drop, OnOk};
ghost use Rattle.std.specs.Arc.{arc_value};
ghost use Rattle.checkpoints.specs.Coming.{NoneComes};
ghost use Rattle.checkpoints.specs.Cut.{Chain};
ghost use Rattle.checkpoints.specs.Pieces.{all_in};
ghost use Rattle.rejoin.specs.Joining.{IsWorking};
ghost use Rattle.rejoin.specs.Reused.{next_first};

use crate::change::Change;
use crate::ledger::Ledger;
use crate::notes::note_worked;
use checkpoints::{Segment, Segments, comes_before, next_piece};
use event_loop::Engine;
use std::alloc::Allocator;
use std::sync::Arc;
use swf_text::Memory;

#[derive(Drop)]
pub(crate) struct Patch<A: Allocator + Copy> {
    pub(crate) engine: Engine<A>,
    pub(crate) last_reused: bool,
    pub(crate) ledger: Ledger<A>,
    pub(crate) started: u64,
    pub(crate) segments: Segments<A>,
    pub(crate) places: Vec<Option<usize>, A>,
    pub(crate) handled: u64,
    pub(crate) reused: u64,
}

pub(crate) fn work_to<A: Allocator + Copy>(
    alloc: A,
    change: &Change<'_, A>,
    at: usize,
    spacing: u32,
    patch: &mut Patch<A>,
) -> Result<(), Memory>
    requires spacing { 1 ≤ spacing }
    requires working { IsWorking change.now spacing at patch.old }
    ensures working { OnOk result (IsWorking change.now spacing at patch.new) }
    ensures reached { OnOk result (NoneComes patch.new.engine (next_first (drop at change.now.old))) }
{
    let end = change.first(at);
    'segments: while comes_before(&patch.engine, end) {
        let piece = next_piece(alloc, &mut patch.engine, spacing, end, &mut patch.started)?;
        note_worked(change, at, &piece, &mut patch.ledger)?;
        patch.segments.add(&change.plan(), piece)?;
        patch.places.push(None)?;
    }
    Ok(())
}

pub(crate) fn reuse<A: Allocator + Copy>(
    change: &Change<'_, A>,
    segment: &Arc<Segment<A>, A>,
    at: usize,
    patch: &mut Patch<A>,
) -> Result<(), Memory>
    requires chain { (b : ℕ) × Chain change.now.is 0 (all_in change.now.is patch.old.segments) b }
    requires few { patch.old.reused + 1 < 2 ^ 64 }
    ensures segments { OnOk result (all_in change.now.is patch.new.segments ≡ all_in change.now.is patch.old.segments ++ arc_value segment.now ∷ []) }
    ensures places { OnOk result (patch.new.places.items ≡ patch.old.places.items ++ Some at ∷ []) }
    ensures reused { OnOk result (patch.new.reused ≡ patch.old.reused + 1) }
    ensures handled { OnOk result (patch.new.handled ≡ patch.old.handled) }
    ensures last { OnOk result (patch.new.last_reused ≡ true) }
{
    patch.segments.reuse(&change.plan(), segment)?;
    patch.places.push(Some(at))?;
    patch.reused += 1;
    patch.last_reused = true;
    Ok(())
}
