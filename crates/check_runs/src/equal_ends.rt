// Many jobs that end at the same second.
use crate::clusters::all_join;
use checking::table_of;
use cluster_state::Cluster;
use easy_rule::{Shadow, decide, shadow_counted};
use job_table::JobTable;
use scenarios::{PlanRef, Scenario};
use std::alloc::Global;
use std::process::Abort;
use swf_text::Memory;

/// How many they are, each on one processor.
const MANY: usize = 1_000;

/// One more, which needs half of the processors.
const HALF: &[u8] = b"1001 1 -1 100 500 -1 -1 500 100 -1 1 7 -1 -1 -1 -1 -1 -1\n";

fn add_lines(alloc: Global, log: &mut Vec<u8>) -> Option<()> {
    for number in 1..=MANY {
        let line = format!(in alloc; "{number} 0 -1 100 1 -1 -1 1 100 -1 1 7 -1 -1 -1 -1 -1 -1\n");
        log.extend_from_slice(line.ok()?.as_bytes()).ok()?;
    }
    log.extend_from_slice(HALF).ok()
}

fn table(alloc: Global) -> Option<JobTable<Global>> {
    let mut log = Vec::new(alloc);
    add_lines(alloc, &mut log)?;
    table_of(alloc, log.as_slice())
}

// Whether as many jobs start as there are processors, where all have joined the queue.
fn all_start(
    alloc: Global,
    cluster: &mut Cluster<Global>,
    table: &JobTable<Global>,
    scenario: Scenario,
) -> Result<bool, Memory> {
    for job in PlanRef::of(table, scenario).jobs() {
        if !all_join(cluster, &[job])? {
            return Ok(false);
        }
    }
    Ok(decide(alloc, cluster, 0)?.len() == MANY)
}

// Whether the shadow is answered of the one that waits, with all that is over at its second, after some
// ends were read, but no more than a block has and one: those before give back too little together, and
// what the others of that second give back is added up by blocks.
fn reads_a_block(cluster: &Cluster<Global>) -> bool {
    let (outcome, reads) = shadow_counted(cluster);
    outcome
        == Some(Shadow {
            time: 100,
            extra: 500,
        })
        && (1..=129).contains(&reads)
}

// Whether all of them leave at their end, and none before.
fn all_leave(cluster: &mut Cluster<Global>) -> bool {
    cluster.finish_until(99);
    let before = cluster.free();
    cluster.finish_until(100);
    (before, cluster.free(), cluster.next_end()) == (0, 1_000, None)
}

fn end_at_once(alloc: Global, table: &JobTable<Global>) -> Option<bool> {
    let mut cluster = Cluster::new(alloc, 1_000);
    let scenario = Scenario::new(1_000, 1000)?;
    let start = all_start(alloc, &mut cluster, table, scenario).ok()?;
    Some(start && reads_a_block(&cluster) && all_leave(&mut cluster))
}

#[test]
fn many_jobs_end_at_the_same_second(rt: HostRuntime) {
    let table = table(rt.alloc());
    assert!(rt; table.is_some_and(|table| end_at_once(rt.alloc(), &table) == Some(true)));
}
