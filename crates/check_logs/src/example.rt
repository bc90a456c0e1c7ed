//! The example of the page of `swf_text`, as it stands there.

use std::alloc::Allocator;
use swf_text::{SwfFault, header_number, read_swf};

/// The machine's processors, as the comments of a log tell them.
pub fn processors<A: Allocator + Copy>(alloc: A, bytes: &[u8]) -> Result<Option<u64>, SwfFault> {
    let text = read_swf(alloc, bytes)?;
    Ok(header_number(&text, b"MaxProcs"))
}
