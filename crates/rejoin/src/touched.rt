ghost use Rattle.std.specs.Prelude.{◌≡◌, ◌↔◌, ◌+◌, ◌++◌, ℕ, IsTrue, IfOk, OnOk, map};
ghost use Rattle.std.specs.List.Sorted.{IsNonDecreasing};
ghost use Rattle.job_table.specs.Accepted.{AreAccepted};
ghost use Rattle.job_table.specs.Edit.{edit_of, log_after};
ghost use Rattle.job_table.specs.Table.{IsTable};
ghost use Rattle.scenarios.specs.PlanView.{plan_in};
ghost use Rattle.rejoin.specs.Named.{named, submit_in};
ghost use Rattle.rejoin.specs.Started.{AreSingle, count_before, submitted_of};
ghost use Rattle.rejoin.specs.Tested.{AreThose};
ghost use Rattle.rejoin.specs.Touched.{IsTouched, IsTouchedSubmit};

use crate::search::{distinct, rising};
use job_table::Edit;
use scenarios::{Job, PlanRef};
use std::alloc::Allocator;
use swf_text::Memory;

pub(crate) fn number_of<A: Allocator + Copy>(edit: &Edit<A>) -> u64
    ensures { result ≡ named (edit_of edit.now) }
{
    match edit {
        Edit::Insert(entry) => entry.number(),
        Edit::Remove(number) => *number,
        Edit::Change { number, .. } => *number,
    }
}

fn is_touched<A: Allocator + Copy>(
    old_plan: &PlanRef<'_, A>,
    new_plan: &PlanRef<'_, A>,
    number: u64,
) -> bool
    ensures { IsTrue result ↔ IsTouched (plan_in old_plan.now) (plan_in new_plan.now) number }
{
    old_plan.job(number) != new_plan.job(number)
}

pub(crate) fn touched_numbers<A: Allocator + Copy>(
    alloc: A,
    old_plan: &PlanRef<'_, A>,
    edits: &[Edit<A>],
    new_plan: &PlanRef<'_, A>,
) -> Result<Vec<u64, A>, Memory>
    requires table { IsTable old_plan.now.log }
    requires accepted { AreAccepted old_plan.now.log (map edit_of edits.now) }
    requires edited { new_plan.now ≡ record old_plan.now { log = log_after old_plan.now.log (map edit_of edits.now) } }
    ensures those { IfOk result (λ numbers. AreThose (IsTouched (plan_in old_plan.now) (plan_in new_plan.now)) numbers.items) }
    ensures rising { IfOk result (λ numbers. IsNonDecreasing numbers.items) }
    ensures single { IfOk result (λ numbers. AreSingle numbers.items) }
{
    let mut numbers = Vec::new(alloc);
    for edit in edits {
        let number = number_of(edit);
        if is_touched(old_plan, new_plan, number) {
            numbers.push(number)?;
        }
    }
    Ok(distinct(numbers))
}

fn add_submit<A: Allocator + Copy>(
    submits: &mut Vec<u64, A>,
    job: Option<Job>,
) -> Result<(), Memory>
    ensures { OnOk result (submits.new.items ≡ submits.old.items ++ submit_in job) }
{
    if let Some(job) = job {
        submits.push(job.submit())?;
    }
    Ok(())
}

pub(crate) fn touched_submits<A: Allocator + Copy>(
    alloc: A,
    old_plan: &PlanRef<'_, A>,
    new_plan: &PlanRef<'_, A>,
    numbers: &[u64],
) -> Result<Vec<u64, A>, Memory>
    requires { AreThose (IsTouched (plan_in old_plan.now) (plan_in new_plan.now)) numbers.now }
    ensures those { IfOk result (λ submits. AreThose (IsTouchedSubmit (plan_in old_plan.now) (plan_in new_plan.now)) submits.items) }
    ensures rising { IfOk result (λ submits. IsNonDecreasing submits.items) }
    ensures counts { IfOk result (λ submits. (t : ℕ) → count_before t submits.items ≡ submitted_of numbers.now (plan_in old_plan.now) t + submitted_of numbers.now (plan_in new_plan.now) t) }
{
    let mut submits = Vec::new(alloc);
    for number in numbers {
        add_submit(&mut submits, old_plan.job(*number))?;
        add_submit(&mut submits, new_plan.job(*number))?;
    }
    Ok(rising(submits))
}
