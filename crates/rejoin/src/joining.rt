// A re-simulation: from one old segment to the next, and the new segments that come of it. Behind a reused
// one the next is reused too where no touched number is submitted in its stretch. `places` has the place of
// each new segment among the old ones, where it is a reused one; `handled` counts the event seconds worked.
ghost use Rattle.std.specs.Prelude.{◌≡◌, ℕ, ◌≤◌, ◌<◌, ◌+◌, map, length, IfOk, OnOk};
ghost use Rattle.std.specs.Arc.{arc_value};
ghost use Rattle.checkpoints.specs.Cut.{Chain};
ghost use Rattle.checkpoints.specs.Nodes.{AreFrom};
ghost use Rattle.checkpoints.specs.Pieces.{all_in};
ghost use Rattle.rejoin.specs.Joining.{IsBehindReused, IsUpTo, IsWorking};
ghost use Rattle.rejoin.specs.Patch.{IsRejoined};

use crate::change::Change;
use crate::ledger::Ledger;
use crate::notes::pass;
use crate::patch::{Patch, reuse, work_to};
use checkpoints::{Segment, Segments};
use std::alloc::Allocator;
use std::sync::Arc;
use swf_text::Memory;

#[derive(Drop)]
pub(crate) struct Patched<A: Allocator + Copy> {
    pub(crate) segments: Vec<Arc<Segment<A>, A>, A>,
    pub(crate) places: Vec<Option<usize>, A>,
    pub(crate) handled: u64,
    pub(crate) reused: u64,
}

fn reach<A: Allocator + Copy>(
    alloc: A,
    change: &Change<'_, A>,
    at: usize,
    spacing: u32,
    patch: &mut Patch<A>,
) -> Result<(), Memory>
    requires spacing { 1 ≤ spacing }
    requires within { at < length change.now.old }
    requires working { IsWorking change.now spacing at patch.old }
    ensures next { OnOk result (IsUpTo change.now spacing (at + 1) patch.new) }
{
    work_to(alloc, change, at, spacing, patch)?;
    let segment = change.segment(at);
    if patch.engine.position() != segment.first() {
        pass(change, at, &mut patch.ledger)?;
        return Ok(());
    }
    if !change.reuses(at, patch.engine.position(), &patch.ledger) {
        pass(change, at, &mut patch.ledger)?;
        return Ok(());
    }
    patch.handled += patch.engine.handled();
    reuse(change, segment, at, patch)?;
    Ok(())
}

fn follow<A: Allocator + Copy>(
    alloc: A,
    change: &Change<'_, A>,
    at: usize,
    patch: &mut Patch<A>,
) -> Result<(), Memory>
    requires within { at < length change.now.old }
    requires behind { (n : ℕ) × IsBehindReused change.now n at patch.old }
    ensures next { OnOk result ((n : ℕ) → IsBehindReused change.now n at patch.old → IsUpTo change.now n (at + 1) patch.new) }
{
    let segment = change.segment(at);
    if change.is_clear(at) {
        reuse(change, segment, at, patch)?;
        return Ok(());
    }
    patch.engine = change.resume(alloc, at)?;
    patch.started = 0;
    patch.last_reused = false;
    patch.ledger = Ledger::new(alloc, change.submitted_before(segment.first()));
    pass(change, at, &mut patch.ledger)?;
    Ok(())
}

fn finish<A: Allocator + Copy>(
    alloc: A,
    change: &Change<'_, A>,
    spacing: u32,
    patch: &mut Patch<A>,
) -> Result<(), Memory>
    requires spacing { 1 ≤ spacing }
    requires last { IsUpTo change.now spacing (length change.now.old) patch.old }
    ensures places { OnOk result (AreFrom change.now.old (all_in change.now.is patch.new.segments) patch.new.places.items) }
    ensures done { OnOk result (IsRejoined change.now.was change.now.is change.now.old spacing (all_in change.now.is patch.new.segments) patch.new.handled patch.new.reused) }
{
    let len = change.len();
    if patch.last_reused {
        return Ok(());
    }
    work_to(alloc, change, len, spacing, patch)?;
    patch.handled += patch.engine.handled();
    Ok(())
}

fn turn<A: Allocator + Copy>(
    alloc: A,
    change: &Change<'_, A>,
    at: usize,
    spacing: u32,
    patch: &mut Patch<A>,
) -> Result<(), Memory>
    requires spacing { 1 ≤ spacing }
    requires within { at < length change.now.old }
    requires here { IsUpTo change.now spacing at patch.old }
    ensures next { OnOk result (IsUpTo change.now spacing (at + 1) patch.new) }
{
    if patch.last_reused {
        follow(alloc, change, at, patch)
    } else {
        reach(alloc, change, at, spacing, patch)
    }
}

fn go_over<A: Allocator + Copy>(
    alloc: A,
    change: &Change<'_, A>,
    spacing: u32,
    patch: &mut Patch<A>,
) -> Result<(), Memory>
    requires spacing { 1 ≤ spacing }
    requires first { IsUpTo change.now spacing 0 patch.old }
    ensures places { OnOk result (AreFrom change.now.old (all_in change.now.is patch.new.segments) patch.new.places.items) }
    ensures done { OnOk result (IsRejoined change.now.was change.now.is change.now.old spacing (all_in change.now.is patch.new.segments) patch.new.handled patch.new.reused) }
{
    for at in 0..change.len() {
        turn(alloc, change, at, spacing, patch)?;
    }
    finish(alloc, change, spacing, patch)
}

fn settled<A: Allocator + Copy>(
    change: &Change<'_, A>,
    segments: Segments<A>,
    places: Vec<Option<usize>, A>,
    handled: u64,
    reused: u64,
) -> Result<Patched<A>, Memory>
    requires { (b : ℕ) × Chain change.now.is 0 (all_in change.now.is segments) b }
    ensures segments { IfOk result (λ p. map arc_value p.segments.items ≡ all_in change.now.is segments) }
    ensures places { IfOk result (λ p. p.places.items ≡ places.items) }
    ensures handled { IfOk result (λ p. p.handled ≡ handled) }
    ensures reused { IfOk result (λ p. p.reused ≡ reused) }
{
    let segments = segments.finish(&change.plan())?;
    Ok(Patched {
        segments,
        places,
        handled,
        reused,
    })
}

pub(crate) fn rejoined<A: Allocator + Copy>(
    alloc: A,
    change: &Change<'_, A>,
    spacing: u32,
) -> Result<Patched<A>, Memory>
    requires { 1 ≤ spacing }
    ensures places { IfOk result (λ p. AreFrom change.now.old (map arc_value p.segments.items) p.places.items) }
    ensures rejoined { IfOk result (λ p. IsRejoined change.now.was change.now.is change.now.old spacing (map arc_value p.segments.items) p.handled p.reused) }
{
    let mut patch = Patch {
        engine: change.begin(alloc)?,
        last_reused: false,
        ledger: Ledger::new(alloc, change.submitted_before(0)),
        started: 0,
        segments: Segments::new(alloc),
        places: Vec::new(alloc),
        handled: 0,
        reused: 0,
    };
    go_over(alloc, change, spacing, &mut patch)?;
    settled(
        change,
        patch.segments,
        patch.places,
        patch.handled,
        patch.reused,
    )
}
