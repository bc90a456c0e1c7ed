ghost use Rattle.std.specs.Prelude.{◌≡◌, map, IfOk};
ghost use Rattle.std.specs.Arc.{arc_value};
ghost use Rattle.easy_rule.specs.Simulation.{start_of};
ghost use Rattle.checkpoints.specs.Cut.{all_starts};

use crate::row::Row;
use crate::rows::Rows;
use crate::segment::Segment;
use easy_rule::Start;
use std::alloc::Allocator;
use std::sync::Arc;
use swf_text::Memory;

pub(crate) fn find_start(starts: &[Start], number: u64) -> Option<u64>
    ensures { result ≡ start_of starts.now number }
{
    starts.iter().find(|x| x.number == number).map(|x| x.at)
}

pub(crate) fn start_in<A: Allocator + Copy>(
    segments: &[Arc<Segment<A>, A>],
    number: u64,
) -> Option<u64>
    ensures { result ≡ start_of (all_starts (map arc_value segments.now)) number }
{
    for segment in segments {
        let start = find_start(segment.starts(), number);
        if start.is_some() {
            return start;
        }
    }
    None
}

pub(crate) fn listed<A: Allocator + Copy>(
    alloc: A,
    mut rows: Rows<'_, A>,
) -> Result<Vec<Row, A>, Memory>
    ensures { IfOk result (λ list. list.items ≡ rows.entry) }
{
    let mut list = Vec::with_capacity(alloc, rows.left())?;
    'rows: while let Some(row) = rows.next() {
        list.push(row)?;
    }
    Ok(list)
}
