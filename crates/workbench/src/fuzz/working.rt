// What scripts that are changed are answered.
use easybook::{Options, ProgramFault, run_alone};
use memchr::memchr;
use std::io::Cursor;
use std::marker::Sync;
use std::thread::Threads;

/// Answers that all are such as a command may have where memory is not short.
const STATED: &str = "worked";

/// Other answers.
const OTHERS: &str = "answered as no command is";

/// The kinds of answers.
pub(crate) const WORKED: [&str; 6] = [
    STATED,
    "no log",
    "too long",
    "another fault",
    "out of memory",
    OTHERS,
];

/// Why a command is refused, except where memory is short or the journal is full.
const REFUSALS: [&[u8]; 10] = [
    b"NoSuchJob",
    b"DuplicateJob",
    b"BadField",
    b"BadValue",
    b"TableFull",
    b"NameTaken",
    b"TooMany",
    b"NoSuchScenario",
    b"NotYet",
    b"Behind seen ",
];

/// Why a line is no command.
const FAULTS: [&[u8]; 4] = [b"TooLong", b"Unknown", b"Words", b"BadWord "];

/// A machine of ten processors, and short segments.
const OPTIONS: Options = Options {
    procs: Some(10),
    spacing: 2,
    workers: 1,
};

fn kind_of(fault: ProgramFault) -> &'static str {
    match fault {
        ProgramFault::Log(_) => "no log",
        ProgramFault::TooLong => "too long",
        ProgramFault::Memory => "out of memory",
        _ => "another fault",
    }
}

fn begins(text: &[u8], names: &[&[u8]]) -> bool {
    names.iter().any(|name| text.starts_with(name))
}

fn behind_blank(text: &[u8]) -> &[u8] {
    match memchr(b' ', text) {
        Some(at) => &text[at + 1..],
        None => text,
    }
}

// Whether a line is one that a command may be answered with, where memory is not short.
fn is_stated(line: &[u8]) -> bool {
    if line.starts_with(b"refused ") {
        return begins(behind_blank(line), &REFUSALS);
    }
    if line.starts_with(b"fault line ") {
        return begins(behind_blank(behind_blank(behind_blank(line))), &FAULTS);
    }
    !line.starts_with(b"failed ") && !line.starts_with(b"stopped")
}

fn are_stated(text: &[u8]) -> bool {
    let is_whole = text.is_empty() || text.ends_with(b"\n");
    is_whole && text.split(|byte| *byte == b'\n').all(is_stated)
}

pub(crate) fn answer<R: AllocGlobal + Threads + Sync>(
    rt: &R,
    log: &[u8],
    script: &[u8],
) -> &'static str {
    let mut outcome = Vec::new(rt.alloc());
    match run_alone(
        rt,
        rt.alloc(),
        Cursor::new(script),
        &mut outcome,
        log,
        OPTIONS,
    ) {
        Ok(()) if are_stated(outcome.as_slice()) => STATED,
        Ok(()) => OTHERS,
        Err(fault) => kind_of(fault),
    }
}
