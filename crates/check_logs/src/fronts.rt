// The front of a log that comes from a reader, and what stands behind it.
use checking::Dripping;
use parallel_reader::begin_log;
use std::alloc::Global;
use std::io::{ErrorKind, Read};
use std::marker::Sync;
use std::thread::Threads;

/// How many jobs there are: over nine mebibytes of lines, which come in three pieces.
const JOBS: u64 = 200_000;

/// One job more, without its line feed.
const LAST: &[u8] = b"200001 0 -1 1 1 -1 -1 1 1 -1 1 1 -1 -1 -1 -1 -1 -1";

fn add_jobs(alloc: Global, log: &mut Vec<u8>) -> Option<()> {
    for number in 1..=JOBS {
        let line = format!(in alloc;
            "{number} 0 -1 1 1 -1 -1 1 1 -1 1 1 -1 -1 -1 -1 -1 -1\n"
        ).ok()?;
        log.extend_from_slice(line.as_bytes()).ok()?;
    }
    Some(())
}

// Whether all lines of a log that comes from a reader are read as its front, and another behind it.
fn is_all_front<T: Threads + Sync, R: Read + Drop>(
    rt: &T,
    alloc: Global,
    mut reader: R,
    log: &[u8],
) -> bool {
    let Ok(read) = begin_log(rt, alloc, &mut reader) else {
        return false;
    };
    if read.front.bytes() != log.len() as u64 || !read.rest.is_empty() || !read.is_end {
        return false;
    }
    match read.front.read_behind(rt, alloc, LAST) {
        Ok(text) => text.entries().len() as u64 == JOBS + 1,
        Err(_) => false,
    }
}

// Whether the same is so where the reader is interrupted within a line, behind the first piece.
fn goes_on<T: Threads + Sync>(rt: &T, alloc: Global, log: &[u8]) -> bool {
    let (first, rest) = log.split_at(5_000_000.min(log.len()));
    let reader = first.chain(Dripping::new(b"", 0, true)).chain(rest);
    is_all_front(rt, alloc, reader, log)
}

fn fails_behind<T: Threads + Sync>(rt: &T, alloc: Global, log: &[u8]) -> bool {
    let mut reader = log.chain(Dripping::new(b"", 0, false));
    match begin_log(rt, alloc, &mut reader) {
        Ok(_) => false,
        Err(error) => error.kind() == ErrorKind::BrokenPipe,
    }
}

// How the log of all jobs comes.
#[derive(Clone, Copy)]
enum Comes {
    Whole,
    Interrupted,
    BeforeAnError,
}

// Whether it is read as is due.
fn reads(alloc: Global, rt: &(impl Threads + Sync), comes: Comes) -> bool {
    let mut log = Vec::new(alloc);
    if add_jobs(alloc, &mut log).is_none() {
        return false;
    }
    match comes {
        Comes::Whole => is_all_front(rt, alloc, log.as_slice(), &log),
        Comes::Interrupted => goes_on(rt, alloc, log.as_slice()),
        Comes::BeforeAnError => fails_behind(rt, alloc, log.as_slice()),
    }
}

#[test]
fn the_front_of_a_log_may_be_all_of_it(rt: HostRuntime) {
    assert!(rt; reads(rt.alloc(), &rt, Comes::Whole));
}

#[test]
fn a_reader_that_is_interrupted_goes_on(rt: HostRuntime) {
    assert!(rt; reads(rt.alloc(), &rt, Comes::Interrupted));
}

#[test]
fn the_error_of_a_reader_comes(rt: HostRuntime) {
    assert!(rt; reads(rt.alloc(), &rt, Comes::BeforeAnError));
}
