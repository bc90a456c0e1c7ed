// Logs that are written where the writer fails.
use checking::Filling;
use std::alloc::Global;
use swf_text::{SwfText, WriteFault, read_swf, write_bytes, write_swf};

/// A log of comments between lines, tabs, carriage returns and a part behind a line that is not packed.
const MIXED: &[u8] =
    b"\t ; first \r\r\n1\t0 -1 100.0 007.50 -0.0000001 0.000125 6 100 -1 1 7 -1 -1 -1 -1 -1 -1\r\n  \r\n;\n  1 -1 -1 5 6 -1 -1 6 5 -1 2 7 -1 -1 -1 -1 -1 -1";

/// The same as it is written.
const WRITTEN: &[u8] =
    b"; first \n;\n1 0 -1 100 7.5 0 0.000125 6 100 -1 1 7 -1 -1 -1 -1 -1 -1\n1 -1 -1 5 6 -1 -1 6 5 -1 2 7 -1 -1 -1 -1 -1 -1\n";

// Whether a log is written up to where a writer of so many calls of seven bytes fails, which is answered.
fn is_written(alloc: Global, text: &SwfText<Global>, calls: usize, takes_none: bool) -> bool {
    let mut writer = Filling::new(alloc, 7, calls, takes_none);
    match write_swf(text, &mut writer) {
        Ok(()) => writer.took(WRITTEN, true),
        Err(fault) => fault == WriteFault::Device && writer.took(WRITTEN, false),
    }
}

// Whether it holds of writers of fewer than 31 calls.
fn are_written(alloc: Global, text: &SwfText<Global>) -> bool {
    for calls in 0..31usize {
        if !is_written(alloc, text, calls, false) || !is_written(alloc, text, calls, true) {
            return false;
        }
    }
    true
}

#[test]
fn writes_a_prefix_where_the_writer_fails(rt: HostRuntime) {
    let text = read_swf(rt.alloc(), MIXED);
    assert!(rt; text.is_ok_and(|text| are_written(rt.alloc(), &text)));
}

// Whether five bytes are written by a writer of so many calls of two, or it fails.
fn takes_five(alloc: Global, calls: usize, wanted: Result<(), WriteFault>) -> bool {
    let mut writer = Filling::new(alloc, 2, calls, false);
    write_bytes(&mut writer, b"abcde") == wanted && writer.took(b"abcde", wanted.is_ok())
}

#[test]
fn writes_bytes_in_pieces(rt: HostRuntime) {
    assert!(rt; takes_five(rt.alloc(), 2, Err(WriteFault::Device)));
    assert!(rt; takes_five(rt.alloc(), 3, Ok(())));
}
