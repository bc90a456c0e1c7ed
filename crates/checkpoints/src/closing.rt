ghost use Rattle.std.specs.Prelude.{◌≡◌, ◌++◌, ◌∷◌, ◌+◌, ◌<◌, ◌≤◌, [], ℕ, flat_map, length, map, option_copied, slice_get, IfOk, OnOk, Some};
ghost use Rattle.std.specs.Arc.{arc_value};
ghost use Rattle.scenarios.specs.PlanView.{plan_in};
ghost use Rattle.cluster_state.specs.Snapshot.{IsSnapshot, numbers_of};
ghost use Rattle.easy_rule.specs.Simulation.{before};
ghost use Rattle.checkpoints.specs.Cut.{Chain};
ghost use Rattle.checkpoints.specs.Pieces.{PieceView, segment_of};
ghost use Rattle.checkpoints.specs.Closing.{base_of, last_of, numbers_in, segments_at};

use crate::gap::Gap;
use crate::piece::Piece;
use crate::segment::Segment;
use crate::shared::Shared;
use easy_rule::Start;
use scenarios::PlanRef;
use std::alloc::Allocator;
use std::sync::Arc;
use swf_text::Memory;
use timeline::laws::states_stand_in_a_stretch;

fn last_of<A: Allocator + Copy>(segments: &[Arc<Segment<A>, A>]) -> Option<&Segment<A>>
    ensures { option_copied result ≡ last_of (map arc_value segments.now) }
{
    let segment = segments.last()?;
    Some(segment)
}

fn seconds_of<A: Allocator + Copy>(
    alloc: A,
    pieces: &[Piece<A>],
    last: u64,
) -> Result<Vec<u64, A>, Memory>
    ensures { IfOk result (λ seconds. seconds.items ≡ map (λ p. p.first) pieces.now ++ last ∷ []) }
{
    let mut seconds = Vec::with_capacity(alloc, pieces.len().saturating_add(1))?;
    for piece in pieces {
        seconds.push(piece.first())?;
    }
    seconds.push(last)?;
    Ok(seconds)
}

fn starts_of<A: Allocator + Copy>(
    alloc: A,
    base: Option<&Segment<A>>,
    pieces: &[Piece<A>],
) -> Result<Vec<Start, A>, Memory>
    ensures { IfOk result (λ starts. starts.items ≡ (base_of (option_copied base.entry)).starts ++ flat_map (λ p. p.starts) pieces.now) }
{
    let mut starts = Vec::new(alloc);
    add_starts_of(base, &mut starts)?;
    for piece in pieces {
        starts.extend_from_slice(piece.starts())?;
    }
    Ok(starts)
}

fn add_starts_of<A: Allocator + Copy>(
    base: Option<&Segment<A>>,
    starts: &mut Vec<Start, A>,
) -> Result<(), Memory>
    ensures { OnOk result (starts.new.items ≡ starts.old.items ++ (base_of (option_copied base.entry)).starts) }
{
    match base {
        None => Ok(()),
        Some(segment) => Ok(starts.extend_from_slice(segment.starts())?),
    }
}

pub(crate) fn shared_of<A: Allocator + Copy>(
    alloc: A,
    plan: &PlanRef<'_, A>,
    done: &[Arc<Segment<A>, A>],
    pieces: &[Piece<A>],
    last: &Piece<A>,
) -> Result<Shared<A>, Memory>
    requires chain { (m : ℕ) × Chain (plan_in plan.now) 0 (map arc_value done.now ++ map (segment_of (plan_in plan.now)) (pieces.now ++ last.now ∷ [])) m }
    requires few { length pieces.now < 4294967295 }
    ensures { IfOk result (λ shared. (place t : ℕ) → slice_get (map (λ (p : PieceView). p.first) (pieces.now ++ last.now ∷ [])) place ≡ Some t → numbers_in place shared ≡ numbers_of (before (plan_in plan.now) t)) }
{
    states_stand_in_a_stretch();
    prove!(plan.scenario().procs() >= 1);
    let base = last_of(done);
    let seconds = seconds_of(alloc, pieces, last.first())?;
    let starts = starts_of(alloc, base, pieces)?;
    let gap = Gap::of(seconds, starts)?;
    let shared = Shared::of(alloc, plan, &gap, base, last.first())?;
    Ok(shared)
}

fn add_piece<A: Allocator + Copy>(
    alloc: A,
    piece: Piece<A>,
    place: u32,
    shared: &Shared<A>,
    done: &mut Vec<Arc<Segment<A>, A>, A>,
) -> Result<(), Memory>
    requires { IsSnapshot (numbers_in place shared.now) }
    ensures { OnOk result (map arc_value done.new.items ≡ map arc_value done.old.items ++ segments_at place shared.now (piece ∷ [])) }
{
    let segment = piece.with(shared.at(place)?);
    done.push(Arc::new(alloc, segment)?)?;
    Ok(())
}

pub(crate) fn add_pieces<A: Allocator + Copy>(
    alloc: A,
    pieces: Vec<Piece<A>, A>,
    shared: &Shared<A>,
    done: &mut Vec<Arc<Segment<A>, A>, A>,
) -> Result<(), Memory>
    requires few { length pieces.items ≤ 4294967295 }
    requires snapshots { (place : ℕ) → place < length pieces.items → IsSnapshot (numbers_in place shared.now) }
    ensures { OnOk result (map arc_value done.new.items ≡ map arc_value done.old.items ++ segments_at 0 shared.now pieces.items) }
{
    let mut place = 0;
    for piece in pieces {
        add_piece(alloc, piece, place, shared, done)?;
        place += 1;
    }
    Ok(())
}
