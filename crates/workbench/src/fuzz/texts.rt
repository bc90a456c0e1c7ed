// Texts that are put together of pieces.
use std::alloc::Global;
use swf_text::Memory;

// What stands in a text behind these pieces; none where it doesn't begin with them.
pub(crate) fn behind<'t>(text: &'t [u8], pieces: &[&[u8]]) -> Option<&'t [u8]> {
    let mut rest = text;
    for piece in pieces {
        rest = rest.strip_prefix(*piece)?;
    }
    Some(rest)
}

pub(crate) fn is_of(text: &[u8], pieces: &[&[u8]]) -> bool {
    behind(text, pieces).is_some_and(|rest| rest.is_empty())
}

pub(crate) fn joined(alloc: Global, pieces: &[&[u8]]) -> Result<Vec<u8>, Memory> {
    let mut text = Vec::new(alloc);
    for piece in pieces {
        text.extend_from_slice(piece)?;
    }
    Ok(text)
}
