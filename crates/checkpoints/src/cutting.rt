// The numbers before a piece are noted at once where they are few beside its work, or no more than the starts
// since the last that were noted: then noting them all costs little. It decides only what is noted at once.
ghost use Rattle.std.specs.Prelude.{◌≡◌, ◌≤◌, ◌↔◌, false, IsTrue, IfOk, IfSome, OnOk};
ghost use Rattle.cluster_state.specs.Snapshot.{numbers_of};
ghost use Rattle.easy_rule.specs.Simulation.{before as before_second};
ghost use Rattle.event_loop.specs.Going.{IsRunOn};
ghost use Rattle.metrics.specs.Placed.{CanSum};
ghost use Rattle.checkpoints.specs.Coming.{ComesBefore, NoneComes};
ghost use Rattle.checkpoints.specs.Cut.{Spans};
ghost use Rattle.checkpoints.specs.Pieces.{IsNotedIn, segment_of};
ghost use Rattle.checkpoints.specs.Worked.{WorksStretch, WorksUpTo};

use crate::parts::add_placed;
use crate::piece::Piece;
use cluster_state::Snapshot;
use easy_rule::{Start, add_starts};
use event_loop::Engine;
use metrics::{Part, Placed};
use std::alloc::Allocator;
use swf_text::Memory;

#[derive(Drop)]
struct Worked<A: Allocator + Copy> {
    starts: Vec<Start, A>,
    placed: Vec<Placed, A>,
}

/// Whether an event second comes before the end; any does where there is no end.
pub fn comes_before<A: Allocator + Copy>(engine: &Engine<A>, end: Option<u64>) -> bool
    requires { engine.now.failed ≡ false }
    ensures comes { IsTrue result ↔ ComesBefore engine.now end }
    ensures none { result ≡ false → NoneComes engine.now end }
{
    match (engine.next_event(), end) {
        (None, _) => false,
        (Some(_), None) => true,
        (Some(second), Some(end)) => second < end,
    }
}

fn work<A: Allocator + Copy>(
    alloc: A,
    engine: &mut Engine<A>,
    spacing: u32,
    end: Option<u64>,
) -> Result<Worked<A>, Memory>
    requires spacing { 1 ≤ spacing }
    requires going { engine.old.failed ≡ false }
    requires coming { ComesBefore engine.old end }
    ensures stretch { IfOk result (λ w. WorksStretch engine.old engine.new w.starts.items w.placed.items) }
    ensures events { OnOk result (WorksUpTo engine.old engine.new spacing end) }
    ensures can { IfOk result (λ w. CanSum w.placed.items) }
{
    let mut starts = Vec::new(alloc);
    let mut placed = Vec::new(alloc);
    let mut started = Vec::new(alloc);
    for _ in 0..spacing {
        if !comes_before(engine, end) {
            return Ok(Worked { starts, placed });
        }
        let Some(second) = engine.step_into(&mut started)? else {
            return Ok(Worked { starts, placed });
        };
        add_placed(&mut placed, started.as_slice(), second)?;
        add_starts(&mut starts, started.as_slice(), second)?;
    }
    Ok(Worked { starts, placed })
}

/// So few who wait and run are noted at each piece, however few event seconds it has.
const FEW: usize = 256;

/// For each event second of a piece past so many, that many more are.
const EACH: usize = 4;

fn few(spacing: u32) -> usize {
    let beyond = (spacing as usize).saturating_sub(FEW);
    beyond.saturating_mul(EACH).saturating_add(FEW)
}

fn noted<A: Allocator + Copy>(
    engine: &Engine<A>,
    spacing: u32,
    started: &mut u64,
) -> Result<Option<Snapshot<A>>, Memory>
    requires { engine.now.failed ≡ false }
    ensures noted { IfOk result (λ before. IfSome before (λ there. there ≡ numbers_of (before_second engine.now.plan engine.now.position))) }
{
    let standing = engine.standing();
    if standing > few(spacing) && standing as u64 > *started {
        return Ok(None);
    }
    *started = 0;
    let before = engine.snapshot()?;
    Ok(Some(before))
}

/// The next piece of an engine's simulation: `spacing` event seconds, or those that come before the
/// end, of which there is one. Memory where a growth was refused.
///
/// `started` is how many jobs have started since the last snapshot that was noted: 0 at first. It decides
/// only whether the piece's snapshot is noted at once: it is where those who wait and run are few beside
/// the spacing, or no more than these.
pub fn next_piece<A: Allocator + Copy>(
    alloc: A,
    engine: &mut Engine<A>,
    spacing: u32,
    end: Option<u64>,
    started: &mut u64,
) -> Result<Piece<A>, Memory>
    requires spacing { 1 ≤ spacing }
    requires going { engine.old.failed ≡ false }
    requires coming { ComesBefore engine.old end }
    ensures run { IfOk result (λ p. IsRunOn engine.old engine.new p.starts) }
    ensures spans { IfOk result (λ p. Spans engine.old.plan (segment_of engine.old.plan p) engine.old.position engine.new.position) }
    ensures noted { IfOk result (IsNotedIn engine.old.plan) }
    ensures events { OnOk result (WorksUpTo engine.old engine.new spacing end) }
{
    let first = engine.position();
    let before = noted(engine, spacing, started)?;
    let Worked { starts, placed } = work(alloc, engine, spacing, end)?;
    *started = started.saturating_add(starts.len() as u64);
    let part = Part::of(alloc, placed.as_slice())?;
    Ok(Piece::new(first, before, starts, part))
}
