ghost use Rattle.std.specs.Prelude.{◌≡◌, map};
ghost use Rattle.commands.specs.ScenarioLine.{short_number, line_made, line_of_words, after_mark, scenario_line};

use crate::name::ScenarioName;
use crate::words::words_of;
use scenarios::Order;
use swf_text::{are_digits, digits_value, from_first};

/// What a comment that tells of a scenario has behind its `;`.
const MARK: &[u8] = b"Scenario:";

/// The most digits of a number on such a comment.
const DIGIT_LIMIT: usize = 18;

/// A scenario as a comment of a log tells it: `; Scenario: NAME PROCS FACTOR ORDER`. The numbers
/// may lie outside the limits of a scenario.
#[derive(Drop)]
pub struct ScenarioLine {
    pub name: ScenarioName,
    /// The machine's size, in processors.
    pub procs: u64,
    /// What the estimates are multiplied by, in thousandths.
    pub factor: u64,
    pub order: Order,
}

fn short_number(word: &[u8]) -> Option<u64>
    ensures { result ≡ short_number word.now }
{
    if are_digits(word) && word.len() <= DIGIT_LIMIT {
        Some(digits_value(word))
    } else {
        None
    }
}

fn line_made(name: &[u8], procs: &[u8], factor: &[u8], order: Option<Order>) -> Option<ScenarioLine>
    ensures { result ≡ line_made name.now procs.now factor.now order }
{
    let name = ScenarioName::new(name)?;
    let procs = short_number(procs)?;
    let factor = short_number(factor)?;
    let order = order?;
    Some(ScenarioLine {
        name,
        procs,
        factor,
        order,
    })
}

fn line_of_words(words: &[&[u8]]) -> Option<ScenarioLine>
    ensures { result ≡ line_of_words (map (λ w. w.now) words.now) }
{
    if words.len() == 3 {
        return line_made(words[0], words[1], words[2], Some(Order::Arrival));
    }
    if words.len() == 4 {
        return line_made(words[0], words[1], words[2], Order::of_word(words[3]));
    }
    None
}

fn after_mark(bytes: &[u8]) -> Option<ScenarioLine>
    ensures { result ≡ after_mark bytes.now }
{
    if bytes.starts_with(MARK) {
        line_of_words(words_of(&bytes[MARK.len()..]).as_slice())
    } else {
        None
    }
}

/// The scenario that a comment of a log tells of; None of any other comment. Such a comment is
/// `;`, blanks or none, `Scenario:`, blanks or none, and then three or four words between blanks: a
/// name, processors and a factor in one to eighteen digits, and `arrival` or `shortest`; without
/// this word the order is that of arrival. Takes no memory.
pub fn scenario_line(comment: &[u8]) -> Option<ScenarioLine>
    ensures { result ≡ scenario_line comment.now }
{
    match comment {
        [b';', rest @ ..] => after_mark(from_first(rest)),
        _ => None,
    }
}
