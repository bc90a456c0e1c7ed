//! The segments of a simulation while it is worked.

ghost use Rattle.std.specs.Prelude.{◌≡◌, ◌<◌, ◌++◌, ◌∷◌, [], ℕ, length, map, IfOk, OnOk, Some};
ghost use Rattle.std.specs.Arc.{arc_value};
ghost use Rattle.scenarios.specs.PlanView.{plan_in};
ghost use Rattle.checkpoints.specs.Cut.{Chain, Spans};
ghost use Rattle.checkpoints.specs.Pieces.{IsNotedIn, all_in, segment_of};

use crate::closing::{add_pieces, shared_of};
use crate::piece::Piece;
use crate::segment::Segment;
use scenarios::PlanRef;
use std::alloc::Allocator;
use std::marker::Model;
use std::mem::replace;
use std::sync::Arc;
use swf_text::Memory;
use timeline::laws::states_stand_in_a_stretch;

/// How many pieces may be pending: fewer than a frame has places.
const PENDING: usize = 65_536;

/// The segments of a plan's simulation, one after another from second 0 on, while it is worked; seen as
/// those that are done, and the pieces behind them whose snapshots are still to be made.
///
/// A piece whose snapshot was noted becomes a segment at once, and so do those that are pending before
/// it: their snapshots are made together.
#[derive(Drop)]
pub struct Segments<A: Allocator + Copy> {
    alloc: A,
    done: Vec<Arc<Segment<A>, A>, A>,
    pieces: Vec<Piece<A>, A>,
}

impl<A: Allocator + Copy> Model for Segments<A> {
    ghost use Rattle.std.specs.Prelude.{◌≤◌, length, map};
    ghost use Rattle.std.specs.Arc.{arc_value};
    ghost use Rattle.checkpoints.specs.Pieces.{SegmentsView};

    ghost Value = { SegmentsView };

    ghost view = { λ s. record { done = map arc_value s.done.items; pieces = s.pieces.items } };

    ghost invariant = { λ s. length s.pieces.items ≤ 65536 };
}

impl<A: Allocator + Copy> Segments<A> {
    /// No segments yet. It takes no memory.
    pub fn new(alloc: A) -> Segments<A>
        ensures { result ≡ record { done = []; pieces = [] } }
    {
        Segments {
            alloc,
            done: Vec::new(alloc),
            pieces: Vec::new(alloc),
        }
    }

    /// One segment more: the piece, which was worked behind the others. Memory where a growth was
    /// refused.
    pub fn add(&mut self, plan: &PlanRef<'_, A>, piece: Piece<A>) -> Result<(), Memory>
        requires chain { (m : ℕ) × (b : ℕ) × Chain (plan_in plan.now) 0 (all_in (plan_in plan.now) self.old) m × Spans (plan_in plan.now) (segment_of (plan_in plan.now) piece) m b }
        requires noted { IsNotedIn (plan_in plan.now) piece }
        ensures { OnOk result (all_in (plan_in plan.now) self.new ≡ all_in (plan_in plan.now) self.old ++ segment_of (plan_in plan.now) piece ∷ []) }
    {
        match piece.into_segment() {
            Ok(segment) => self.put(plan, segment),
            Err(piece) => self.wait(plan, piece),
        }
    }

    /// One segment more: one of an old run, which is shared from now on. Memory where a growth was refused.
    pub fn reuse(
        &mut self,
        plan: &PlanRef<'_, A>,
        segment: &Arc<Segment<A>, A>,
    ) -> Result<(), Memory>
        requires { (m : ℕ) × Chain (plan_in plan.now) 0 (all_in (plan_in plan.now) self.old) m }
        ensures { OnOk result (all_in (plan_in plan.now) self.new ≡ all_in (plan_in plan.now) self.old ++ arc_value segment.now ∷ []) }
    {
        self.close(plan)?;
        self.done.push(segment.clone()?)?;
        Ok(())
    }

    /// The segments, where no more are to come. Memory where a growth was refused.
    pub fn finish(mut self, plan: &PlanRef<'_, A>) -> Result<Vec<Arc<Segment<A>, A>, A>, Memory>
        requires { (m : ℕ) × Chain (plan_in plan.now) 0 (all_in (plan_in plan.now) self) m }
        ensures { IfOk result (λ segments. map arc_value segments.items ≡ all_in (plan_in plan.now) self) }
    {
        self.close(plan)?;
        Ok(self.done)
    }

    fn put(&mut self, plan: &PlanRef<'_, A>, segment: Segment<A>) -> Result<(), Memory>
        requires { (m : ℕ) × Chain (plan_in plan.now) 0 (all_in (plan_in plan.now) self.old) m }
        ensures done { OnOk result (self.new.done ≡ all_in (plan_in plan.now) self.old ++ segment ∷ []) }
        ensures pieces { OnOk result (self.new.pieces ≡ []) }
    {
        self.close(plan)?;
        self.done.push(Arc::new(self.alloc, segment)?)?;
        Ok(())
    }

    fn wait(&mut self, plan: &PlanRef<'_, A>, piece: Piece<A>) -> Result<(), Memory>
        requires { (m : ℕ) × Chain (plan_in plan.now) 0 (all_in (plan_in plan.now) self.old) m }
        ensures { OnOk result (all_in (plan_in plan.now) self.new ≡ all_in (plan_in plan.now) self.old ++ segment_of (plan_in plan.now) piece ∷ []) }
    {
        self.make_capacity(plan)?;
        self.pieces.push(piece)?;
        Ok(())
    }

    fn make_capacity(&mut self, plan: &PlanRef<'_, A>) -> Result<(), Memory>
        requires { (m : ℕ) × Chain (plan_in plan.now) 0 (all_in (plan_in plan.now) self.old) m }
        ensures same { OnOk result (all_in (plan_in plan.now) self.new ≡ all_in (plan_in plan.now) self.old) }
        ensures capacity { OnOk result (length self.new.pieces < 65536) }
    {
        if self.pieces.len() < PENDING {
            return Ok(());
        }
        self.close(plan)
    }

    fn close(&mut self, plan: &PlanRef<'_, A>) -> Result<(), Memory>
        requires { (m : ℕ) × Chain (plan_in plan.now) 0 (all_in (plan_in plan.now) self.old) m }
        ensures done { OnOk result (self.new.done ≡ all_in (plan_in plan.now) self.old) }
        ensures pieces { OnOk result (self.new.pieces ≡ []) }
    {
        states_stand_in_a_stretch();
        prove!(plan.scenario().procs() >= 1);
        let Some((last, others)) = self.pieces.split_last() else {
            return Ok(());
        };
        let shared = shared_of(self.alloc, plan, self.done.as_slice(), others, last)?;
        let pieces = replace(&mut self.pieces, Vec::new(self.alloc));
        add_pieces(self.alloc, pieces, &shared, &mut self.done)?;
        Ok(())
    }
}
