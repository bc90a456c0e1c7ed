ghost use Rattle.std.specs.Prelude.{◌≡◌, ◌≤◌, length, map, option_copied, IfOk, IfSome};
ghost use Rattle.std.specs.Arc.{arc_value};
ghost use Rattle.job_table.specs.Edit.{edit_of};
ghost use Rattle.book_machine.specs.Noted.{noted_edit_of};
ghost use Rattle.tasks.specs.Tasks.{base_since, bases_since};

use crate::published::Published;
use book_machine::NotedEdit;
use checkpoints::Run;
use job_table::Edit;
use std::alloc::Allocator;
use std::marker::Model;
use std::sync::Arc;
use swf_text::Memory;

/// What a task may start from: a published run, and the edits that were accepted since its version.
#[derive(Drop)]
pub struct Base<A: Allocator + Copy> {
    version: u64,
    run: Arc<Run<A>, A>,
    edits: Vec<Edit<A>, A>,
}

impl<A: Allocator + Copy> Model for Base<A> {
    ghost use Rattle.std.specs.Prelude.{map};
    ghost use Rattle.std.specs.Arc.{arc_value};
    ghost use Rattle.job_table.specs.Edit.{edit_of};
    ghost use Rattle.tasks.specs.Tasks.{BaseView};

    ghost Value = { BaseView };

    ghost view = { λ b. record { version = b.version; run = arc_value b.run; edits = map edit_of b.edits.items } };
}

fn edits_of<A: Allocator + Copy>(
    alloc: A,
    noted: &[NotedEdit<A>],
) -> Result<Vec<Edit<A>, A>, Memory>
    ensures { IfOk result (λ edits. map edit_of edits.items ≡ map noted_edit_of noted.now) }
{
    let mut edits = Vec::with_capacity(alloc, noted.len())?;
    for edit in noted {
        edits.push(edit.edit()?)?;
    }
    Ok(edits)
}

fn base_since<A: Allocator + Copy>(
    alloc: A,
    published: &Published<A>,
    edits: &[NotedEdit<A>],
) -> Result<Base<A>, Memory>
    requires { published.now.version ≤ length edits.now }
    ensures { IfOk result (λ base. base ≡ base_since (map noted_edit_of edits.now) published.now) }
{
    let version = published.version();
    let (_, later) = edits.split_at(version as usize);
    let since = edits_of(alloc, later)?;
    Ok(Base {
        version,
        run: published.run().clone()?,
        edits: since,
    })
}

impl<A: Allocator + Copy> Base<A> {
    /// The base that a published run makes, with the noted edits since its version; None
    /// where none is published. Its condition: the version is one of those that the edits made. Memory
    /// where a growth was refused.
    pub fn since(
        alloc: A,
        published: Option<&Published<A>>,
        edits: &[NotedEdit<A>],
    ) -> Result<Option<Base<A>>, Memory>
        requires { IfSome (option_copied published) (λ p. p.version ≤ length edits.now) }
        ensures { IfOk result (λ base. base ≡ bases_since (map noted_edit_of edits.now) (option_copied published.entry)) }
    {
        match published {
            Some(published) => Ok(Some(base_since(alloc, published, edits)?)),
            None => Ok(None),
        }
    }

    /// The version of the published run.
    pub fn version(&self) -> u64
        ensures { result ≡ self.now.version }
    {
        self.version
    }

    /// The published run.
    pub fn run(&self) -> &Arc<Run<A>, A>
        ensures { arc_value result.now ≡ self.now.run }
    {
        &self.run
    }

    /// The edits that were accepted since, in their order.
    pub fn edits(&self) -> &[Edit<A>]
        ensures { map edit_of result.now ≡ self.now.edits }
    {
        self.edits.as_slice()
    }
}
