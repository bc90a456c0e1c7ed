// Texts that are changed at random.
use checking::Chance;
use memchr::{memchr2, memrchr2};
use std::alloc::Global;
use swf_text::Memory;

/// What is put into a text: numbers at, above and far above the limits, marks, and bytes that no job
/// line has.
const PIECES: [&[u8]; 16] = [
    b"-1",
    b"0",
    b"0.5",
    b"100000000",
    b"100000001",
    b"16777216",
    b"16777217",
    b"999999999999.999999",
    b"1000000000000",
    b"1000000000001",
    b"99999999999999999999999999",
    b";",
    b"%\n",
    b"\n",
    b"\r",
    b"\xff",
];

/// The most bytes of a stretch that is put in once more.
const STRETCH: u64 = 80;

/// So many bytes of a text from a place on are exchanged for others.
#[derive(Clone, Copy)]
struct Change<'t> {
    at: usize,
    gone: usize,
    new: &'t [u8],
}

fn from_place(text: &[u8], at: usize) -> &[u8] {
    &text[at.min(text.len())..]
}

fn first_bytes(text: &[u8], count: usize) -> &[u8] {
    &text[..count.min(text.len())]
}

fn place(chance: &mut Chance, text: &[u8]) -> usize {
    chance.below((text.len() as u64).saturating_add(1)) as usize
}

fn stretch<'t>(chance: &mut Chance, text: &'t [u8]) -> &'t [u8] {
    let rest = from_place(text, place(chance, text));
    first_bytes(rest, chance.below(STRETCH) as usize)
}

// Where the word or the line around a place begins, and how many bytes it has: what stands between two
// of these marks.
fn around(text: &[u8], at: usize, mark: u8, other: u8) -> (usize, usize) {
    let (before, behind) = text.split_at(at.min(text.len()));
    let from = match memrchr2(mark, other, before) {
        Some(place) => place.saturating_add(1),
        None => 0,
    };
    let end = memchr2(mark, other, behind).unwrap_or(behind.len());
    (from, at.saturating_add(end).saturating_sub(from))
}

fn of_word<'t>(text: &'t [u8], at: usize, new: &'t [u8]) -> Change<'t> {
    let (at, gone) = around(text, at, b' ', b'\n');
    Change { at, gone, new }
}

// The line around a place is put in once more before it.
fn of_line(text: &[u8], at: usize) -> Change<'_> {
    let (at, len) = around(text, at, b'\n', b'\n');
    let new = first_bytes(from_place(text, at), len.saturating_add(1));
    Change { at, gone: 0, new }
}

// A change at random: a byte exchanged, put in or taken out, the end cut off, a piece put in the place
// of a byte or of a word, or a line or another stretch put in once more.
fn drawn<'t>(chance: &mut Chance, text: &'t [u8], byte: &'t [u8]) -> Change<'t> {
    let at = place(chance, text);
    let piece = PIECES[chance.below(16) as usize];
    let (gone, new): (usize, &[u8]) = match chance.below(10) {
        0 => (1, byte),
        1 => (0, byte),
        2 => (1, &[]),
        3 => (usize::MAX, &[]),
        4 => (1, piece),
        5 => (0, stretch(chance, text)),
        6 => return of_line(text, at),
        _ => return of_word(text, at, piece),
    };
    Change { at, gone, new }
}

fn exchanged(alloc: Global, text: &[u8], change: Change<'_>) -> Result<Vec<u8>, Memory> {
    let mut new = Vec::from_slice(alloc, first_bytes(text, change.at))?;
    new.extend_from_slice(change.new)?;
    new.extend_from_slice(from_place(text, change.at.saturating_add(change.gone)))?;
    Ok(new)
}

fn changed(alloc: Global, chance: &mut Chance, text: &[u8]) -> Result<Vec<u8>, Memory> {
    let byte = [chance.below(256) as u8];
    let change = drawn(chance, text, &byte);
    exchanged(alloc, text, change)
}

pub(crate) fn mutated(alloc: Global, chance: &mut Chance, text: &[u8]) -> Result<Vec<u8>, Memory> {
    let mut new = changed(alloc, chance, text)?;
    for _ in 0..chance.below(4) {
        new = changed(alloc, chance, new.as_slice())?;
    }
    Ok(new)
}
