// Logs and scripts that are changed at random, and how often each kind of answers comes.
use crate::fuzz::mutation::mutated;
use crate::fuzz::reading::{self, READ};
use crate::fuzz::working::{self, WORKED};
use checking::{Chance, FOUR, of_turn};
use std::alloc::Global;
use std::io;
use std::marker::Sync;
use std::thread::Threads;
use swf_text::Memory;

/// The logs that are changed: four jobs; partial lines, fractions and comments; a scenario's line.
const LOGS: [&[u8]; 3] = [
    FOUR,
    b"; MaxProcs: 10\n1 0.5 -1 100 6 -1 -1 6 100 -1 1 7 -1 -1 -1 -1 -1 -1\n1 0 -1 50 6 -1 -1 6 100 -1 2 7 -1 -1 -1 -1 -1 -1\n1 60 -1 50 6 -1 -1 6 100 -1 3 7 -1 -1 -1 -1 -1 -1\n\n2 1 -1 50.25 8 -1 -1 8 -1 -1 0 8 -1 -1 -1 -1 -1 -1\n",
    b"; Scenario: big 16 1500 shortest\n7 100000 -1 100 6 -1 -1 6 86400 -1 1 7 -1 -1 -1 -1 -1 -1\n3 0 -1 90 4 -1 -1 17 90 -1 1 7 -1 -1 -1 -1 -1 -1\n",
];

/// The scripts that are changed.
const SCRIPTS: [&[u8]; 2] = [
    b"scenario big 16 1000\nsettle\nside\nremove 1\nschedule base\nsettle\nschedule base\ntable big\nlog base\nversion\nquit\n",
    b"insert 9 4 -1 10 2 -1 -1 2 10 -1 1 7 -1 -1 -1 -1 -1 -1\nchange 2 8 3\nscenario s 8 500 shortest\nsettle\nusers s\ndays s\ndrop base\nretry s\nside\nsave\n",
];

/// How often each kind of answers came.
#[derive(Clone, Copy)]
pub(crate) struct Counts {
    read: [u64; 12],
    worked: [u64; 6],
}

fn count(kinds: &[&str], counts: &mut [u64], kind: &str) {
    for (known, count) in kinds.iter().zip(counts.iter_mut()) {
        if *known == kind {
            *count = count.saturating_add(1);
        }
    }
}

fn work_changed<R: AllocGlobal + Threads + Sync>(
    rt: &R,
    chance: &mut Chance,
    log: &[u8],
    script: &[u8],
) -> Result<&'static str, Memory> {
    let script = mutated(rt.alloc(), chance, script)?;
    Ok(working::answer(rt, log, script.as_slice()))
}

// Changes a log and a script, and counts what they are answered. One script of eight is worked on the log
// that was changed, the others on the four jobs.
fn round<R: AllocGlobal + Threads + Sync>(
    rt: &R,
    seed: u64,
    counts: &mut Counts,
) -> Result<(), Memory> {
    let mut chance = Chance::new(seed, 47);
    let changed = mutated(rt.alloc(), &mut chance, of_turn(&LOGS, seed))?;
    let log = changed.as_slice();
    count(&READ, &mut counts.read, reading::answer(rt.alloc(), log));
    let on = if seed % 8 == 0 { log } else { FOUR };
    let script = of_turn(&SCRIPTS, seed);
    let answer = work_changed(rt, &mut chance, on, script)?;
    count(&WORKED, &mut counts.worked, answer);
    Ok(())
}

// Changes so many logs and scripts, and counts what they are answered.
pub(crate) fn counts_of<R: AllocGlobal + Threads + Sync>(
    rt: &R,
    rounds: u64,
) -> Result<Counts, Memory> {
    let mut counts = Counts {
        read: [0; 12],
        worked: [0; 6],
    };
    for seed in 0..rounds {
        round(rt, seed, &mut counts)?;
    }
    Ok(counts)
}

fn tell<R: Print>(rt: &R, kinds: &[&str], counts: &[u64]) -> io::Result<()> {
    for (kind, count) in kinds.iter().zip(counts.iter()) {
        println!(rt; "{count} {kind}")?;
    }
    Ok(())
}

pub(crate) fn tell_counts<R: Print>(rt: &R, counts: &Counts) -> io::Result<()> {
    tell(rt, &READ, &counts.read)?;
    tell(rt, &WORKED, &counts.worked)
}

// Whether each kind that may come did, and no other.
pub(crate) fn are_as_stated(counts: &Counts) -> bool {
    let read = &counts.read;
    let worked = &counts.worked;
    let came = read[0] > 0 && worked[0] > 0 && worked[1] > 0;
    let others = [read[10], read[11], worked[4], worked[5]];
    came && others == [0; 4] && read[2..9].iter().all(|count| *count > 0)
}

fn counts_of_cuts(alloc: Global) -> [u64; 12] {
    let mut counts = [0; 12];
    for len in 0..FOUR.len() + 1 {
        let cut = &FOUR[..len.min(FOUR.len())];
        count(&READ, &mut counts, reading::answer(alloc, cut));
    }
    counts
}

// Whether each beginning of the four jobs is read or refused as it should be: of each of its four
// lines the whole one is read, with its line feed and without; where its last `1` is missing its
// last word is no number; shorter, it has too few words. No byte at all is a log, too.
pub(crate) fn are_cut_as_stated(alloc: Global) -> bool {
    let counts = counts_of_cuts(alloc);
    let all = (FOUR.len() as u64).saturating_add(1);
    counts[0] == 9 && counts[4] == 4 && counts[3] == all.saturating_sub(13)
}
