ghost use Rattle.std.specs.Prelude.{ℕ, ◌<◌, ◌+◌, length, OnOk};
ghost use Rattle.checkpoints.specs.Cut.{Spans};
ghost use Rattle.checkpoints.specs.Pieces.{segment_of};
ghost use Rattle.rejoin.specs.Reused.{MayBegin};
ghost use Rattle.rejoin.specs.Noted.{IsNoted};

use crate::change::Change;
use crate::ledger::Ledger;
use checkpoints::Piece;
use std::alloc::Allocator;
use swf_text::Memory;

pub(crate) fn note_worked<A: Allocator + Copy>(
    change: &Change<'_, A>,
    at: usize,
    piece: &Piece<A>,
    ledger: &mut Ledger<A>,
) -> Result<(), Memory>
    ensures noted { OnOk result ((a b : ℕ) → Spans change.now.is (segment_of change.now.is piece.now) a b → IsNoted change.now at a ledger.old → IsNoted change.now at b ledger.new) }
{
    if change.first(at).is_none() {
        return Ok(());
    }
    ledger.note_new(change, piece.starts())?;
    Ok(())
}

pub(crate) fn pass<A: Allocator + Copy>(
    change: &Change<'_, A>,
    at: usize,
    ledger: &mut Ledger<A>,
) -> Result<(), Memory>
    requires within { at < length change.now.old }
    ensures noted { OnOk result ((position : ℕ) → MayBegin change.now.is position → IsNoted change.now at position ledger.old
        → IsNoted change.now (at + 1) position ledger.new) }
{
    ledger.note_old(change, change.segment(at).starts())?;
    Ok(())
}
