ghost use Rattle.std.specs.Prelude.{◌≡◌, IfOk};
ghost use Rattle.std.specs.Arc.{arc_value};

use checkpoints::Run;
use std::alloc::Allocator;
use std::marker::Model;
use std::sync::Arc;
use swf_text::Memory;

/// A published run, and the version of whose log it is.
#[derive(Drop)]
pub struct Published<A: Allocator + Copy> {
    version: u64,
    run: Arc<Run<A>, A>,
}

impl<A: Allocator + Copy> Model for Published<A> {
    ghost use Rattle.std.specs.Arc.{arc_value};
    ghost use Rattle.tasks.specs.Published.{PublishedView};

    ghost Value = { PublishedView };

    ghost view = { λ p. record { version = p.version; run = arc_value p.run } };
}

impl<A: Allocator + Copy> Published<A> {
    /// This run, published at this version.
    pub fn new(version: u64, run: Arc<Run<A>, A>) -> Published<A>
        ensures { result ≡ record { version = version; run = arc_value run } }
    {
        Published { version, run }
    }

    /// The version of the log that the run simulates.
    pub fn version(&self) -> u64
        ensures { result ≡ self.now.version }
    {
        self.version
    }

    /// The run.
    pub fn run(&self) -> &Arc<Run<A>, A>
        ensures { arc_value result.now ≡ self.now.run }
    {
        &self.run
    }

    /// The run, taken out.
    pub fn into_run(self) -> Arc<Run<A>, A>
        ensures { arc_value result ≡ self.run }
    {
        self.run
    }

    /// One owner more of the same run; Memory where that is refused.
    pub fn copy(&self) -> Result<Published<A>, Memory>
        ensures { IfOk result (λ p. p ≡ self.now) }
    {
        Ok(Published {
            version: self.version,
            run: self.run.clone()?,
        })
    }
}
