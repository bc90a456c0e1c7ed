ghost use Rattle.std.specs.Prelude.{◌≡◌, ◌≤◌, map, length, IfSome};
ghost use Rattle.swf_text.specs.Number.{number_of};
ghost use Rattle.commands.specs.Words.{job_limit, number_between, entry_value, may_stand, entry_values, job_value};

use swf_text::{Value, read_digits};

/// The greatest job number.
pub(crate) const JOB_LIMIT: u64 = 1_000_000_000_000;

/// The number that a word spells in digits alone, one or more, where it is `least` to `most`.
///
/// None where the word is empty, a byte of it is no digit, or the number is less than `least` or
/// greater than `most`, which is a trillion at most. Leading zeros count for nothing. Takes no
/// memory.
pub fn number_between(word: &[u8], least: u64, most: u64) -> Option<u64>
    requires { most ≤ job_limit }
    ensures value { result ≡ number_between least most word.now }
    ensures within { IfSome result (λ n. (least ≤ n) × (n ≤ most)) }
{
    let number = read_digits(word)?;
    if number < least || number > most {
        return None;
    }
    Some(number)
}

pub(crate) fn value_of(word: &[u8]) -> Option<Value>
    ensures { result ≡ number_of word.now }
{
    Value::from_bytes(word)
}

fn job_value(word: &[u8]) -> Option<Value>
    ensures { result ≡ job_value word.now }
{
    number_between(word, 0, JOB_LIMIT)?;
    value_of(word)
}

fn may_stand(place: u8, value: &Value) -> bool
    ensures { result ≡ may_stand place value.now }
{
    match place {
        2 => value.millionths() >= 0,
        11 => !value.is_partial(),
        _ => true,
    }
}

fn entry_value(place: u8, word: &[u8]) -> Option<Value>
    ensures { result ≡ entry_value place word.now }
{
    if place == 1 {
        return job_value(word);
    }
    let value = value_of(word)?;
    if may_stand(place, &value) {
        Some(value)
    } else {
        None
    }
}

// The words are those behind `insert`; an error is the place of the first that can't stand there.
pub(crate) fn entry_values(words: &[&[u8]]) -> Result<[Value; 18], u8>
    requires { length words.now ≡ 18 }
    ensures { result ≡ entry_values 1 (map (λ w. w.now) words.now) }
{
    let mut values = [Value::ZERO; 18];
    for place in 0..18u8 {
        match entry_value(place + 1, words[place as usize]) {
            Some(value) => values[place as usize] = value,
            None => return Err(place + 1),
        }
    }
    Ok(values)
}
