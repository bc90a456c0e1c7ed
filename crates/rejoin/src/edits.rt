ghost use Rattle.std.specs.Prelude.{◌≡◌, ◌⊎◌, map, IfOk, IfErr, OnOk};
ghost use Rattle.job_table.specs.Accepted.{AreAccepted};
ghost use Rattle.job_table.specs.Edit.{edit_of, log_after};
ghost use Rattle.rejoin.specs.Editing.{IsFirstRefusal};

use job_table::{Edit, EditFault, JobTable};
use std::alloc::Allocator;

/// The table after these edits, one after another, as `rerun` wants it; the fault of the first one
/// that is refused, or Memory where a growth was refused before.
pub fn edited<A: Allocator + Copy>(
    table: &JobTable<A>,
    edits: &[Edit<A>],
) -> Result<JobTable<A>, EditFault>
    ensures accepted { OnOk result (AreAccepted table.now (map edit_of edits.now)) }
    ensures table { IfOk result (λ new. new ≡ log_after table.now (map edit_of edits.now)) }
    ensures fault { IfErr result (λ f. (f ≡ EditFault.Memory) ⊎ IsFirstRefusal f table.now (map edit_of edits.now)) }
{
    let mut new = table.copy()?;
    for edit in edits {
        new.apply(edit)?;
    }
    Ok(new)
}
