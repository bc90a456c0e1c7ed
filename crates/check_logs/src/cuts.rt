// A log that is cut behind each of its bytes.
use checking::FOUR;
use std::alloc::Global;
use swf_text::{FaultKind, SwfFault, read_swf};

fn jobs_of(alloc: Global, log: &[u8]) -> Result<u64, SwfFault> {
    let text = read_swf(alloc, log)?;
    Ok(text.entries().len() as u64)
}

// What is due of the four jobs where these bytes are read, and the rest is cut off. Each line ends in
// `-1` and its line feed: that may be missing; where the digit is too, the last field is no number; and
// before that there are too few fields.
fn wanted(read: &[u8], rest: &[u8]) -> Result<u64, SwfFault> {
    let whole = read.iter().filter(|byte| **byte == b'\n').count() as u64;
    if read.is_empty() || read.ends_with(b"\n") {
        return Ok(whole);
    }
    let line = whole.saturating_add(1);
    let kind = match rest {
        [] | [b'\n', ..] => return Ok(line),
        [b'1', b'\n', ..] => FaultKind::BadNumber(18),
        _ => FaultKind::FieldCount,
    };
    Err(SwfFault { line, kind })
}

#[test]
fn a_log_is_cut_behind_each_byte(rt: HostRuntime) {
    for cut in 0..=FOUR.len() {
        let (read, rest) = FOUR.split_at(cut);
        assert!(rt;
            jobs_of(rt.alloc(), read) == wanted(read, rest),
            "{cut} bytes"
        );
    }
}
