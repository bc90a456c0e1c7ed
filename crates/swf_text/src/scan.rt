ghost use Rattle.std.specs.Prelude.{◌≡◌, ◌+◌, ◌-◌, ◌<◌, ◌≤◌, length, IfSome, Result, Ok, Err};
ghost use Rattle.std.specs.List.{list_any, prefix_len, position_or_len};
ghost use Rattle.swf_text.specs.Line.{is_blank, is_high, without_returns, from_first, fields, values_from, job_line, job_of_values, line_by_front, line_of, IsReadAs};
ghost use Rattle.swf_text.specs.Packed.{unpacked};
ghost use Rattle.swf_text.specs.Scan.{first_word, after_word};
ghost use Rattle.swf_text.specs.declared.line.LineRead.{LineRead};

use crate::limits::LINE_LIMIT;
use crate::line::{Fields, LineFault, LineRead};
use crate::number::number;
use crate::packed::PackedLine;
use crate::value::Value;
use crate::walk::{codes_at, values_at};

fn is_blank(byte: u8) -> bool
    ensures { result ≡ is_blank byte }
{
    byte == b' ' || byte == b'\t'
}

pub(crate) fn blank_count(bytes: &[u8]) -> usize
    ensures value { result ≡ prefix_len is_blank bytes.now }
    ensures within { result ≤ length bytes.now }
{
    for (place, byte) in bytes.iter().enumerate() {
        if !is_blank(*byte) {
            return place;
        }
    }
    bytes.len()
}

fn word_len(bytes: &[u8]) -> usize
    ensures value { result ≡ position_or_len is_blank bytes.now }
    ensures within { result ≤ length bytes.now }
{
    for (place, byte) in bytes.iter().enumerate() {
        if is_blank(*byte) {
            return place;
        }
    }
    bytes.len()
}

/// The bytes without the carriage returns at their end. Takes no memory.
pub fn without_returns(bytes: &[u8]) -> &[u8]
    ensures { result.now ≡ without_returns bytes.now }
{
    let mut end = bytes.len();
    while end > 0 && bytes[end - 1] == b'\r' {
        end -= 1;
    }
    &bytes[..end]
}

/// The bytes from the first that is no blank, a space or a tab. Takes no memory.
pub fn from_first(bytes: &[u8]) -> &[u8]
    ensures { result.now ≡ from_first bytes.now }
{
    &bytes[blank_count(bytes)..]
}

fn has_high(bytes: &[u8]) -> bool
    ensures { result ≡ list_any is_high bytes.now }
{
    bytes.iter().any(|byte| *byte >= 128)
}

/// The first word between blanks and what follows it; both are empty where only blanks are left.
/// Takes no memory.
pub fn next_word(bytes: &[u8]) -> (&[u8], &[u8])
    ensures word { result.0.now ≡ first_word bytes.now }
    ensures rest { result.1.now ≡ after_word bytes.now }
{
    let bytes = from_first(bytes);
    bytes.split_at(word_len(bytes))
}

fn field_count(line: &[u8]) -> usize
    ensures { result ≡ length (fields line.now) }
{
    let mut count = 0usize;
    let mut rest = line;
    loop {
        let (word, after) = next_word(rest);
        if word.is_empty() {
            return count;
        }
        count += 1;
        rest = after;
    }
}

fn values_of(line: &[u8]) -> Result<[Value; 18], u8>
    requires { length (fields line.now) ≡ 18 }
    ensures { result ≡ values_from 1 (fields line.now) }
{
    let mut values = [Value::ZERO; 18];
    let mut rest = line;
    for place in 0..18u8 {
        let (word, after) = next_word(rest);
        match number(word) {
            Some(value) => values[place as usize] = value,
            None => return Err(place + 1),
        }
        rest = after;
    }
    Ok(values)
}

fn job_line(line: &[u8]) -> LineRead
    ensures { result ≡ job_line line.now }
{
    if let Some(packed) = codes_at(line) {
        return LineRead::Job(packed.fields());
    }
    match values_at(line) {
        Some(values) => LineRead::Job(Fields(values)),
        None => checked_line(line),
    }
}

fn checked_line(line: &[u8]) -> LineRead
    ensures { result ≡ job_line line.now }
{
    if has_high(line) {
        return LineRead::Fault(LineFault::NotAscii);
    }
    if field_count(line) != 18 {
        return LineRead::Fault(LineFault::FieldCount);
    }
    match values_of(line) {
        Ok(values) => LineRead::Job(Fields(values)),
        Err(place) => LineRead::Fault(LineFault::BadNumber(place)),
    }
}

/// What one line is, given without its line feed. Takes no memory.
///
/// The line's own rules are those of the Standard Workload Format, version 2: blanks are spaces
/// and tabs, carriage returns at the end are dropped, a comment begins with `;`, and a job line
/// has eighteen numbers. The faults come in the order of `LineFault`.
pub fn read_line(line: &[u8]) -> LineRead
    ensures read { IsReadAs line.now result }
    ensures only { (read : LineRead) → IsReadAs line.now read → result ≡ read }
    ensures exact { result ≡ line_of line.now }
{
    if line.len() > LINE_LIMIT {
        return LineRead::Fault(LineFault::LineTooLong);
    }
    line_within(line)
}

fn line_within(line: &[u8]) -> LineRead
    ensures { result ≡ line_by_front (without_returns line.now) (from_first (without_returns line.now)) }
{
    let line = without_returns(line);
    match from_first(line) {
        [] => LineRead::Blank,
        [b';', ..] => LineRead::Comment,
        _ => job_line(line),
    }
}

/// The values of a job line without faults, in codes, given without its line feed: those of
/// `read_line`. None says nothing: the line is no such one, or a value of it has no code. Takes no
/// memory.
#[tactic(auto, using(crate::proofs::Lines::short_line))]
pub fn packed_line(line: &[u8]) -> Option<PackedLine>
    ensures { IfSome result (λ packed. line_of line.now ≡ job_of_values (Ok (unpacked packed))) }
{
    if line.len() > LINE_LIMIT {
        return None;
    }
    let bare = without_returns(line);
    match from_first(bare) {
        [] | [b';', ..] => None,
        _ => codes_at(bare),
    }
}
