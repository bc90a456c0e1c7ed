ghost use Rattle.std.specs.Prelude.{◌≡◌, map};
ghost use Rattle.commands.specs.Commands.{insert_of, remove_of, change_of, scenario_made, scenario_of, only_name, no_words, command_of, command_of_words, command_of_line};

use crate::command::Command;
use crate::fault::CommandFault;
use crate::keyword::{Keyword, keyword_of};
use crate::name::ScenarioName;
use crate::values::{JOB_LIMIT, entry_values, number_between, value_of};
use crate::words::words_of;
use scenarios::{MAX_FACTOR, MAX_PROCS, Order, Scenario};
use std::alloc::Allocator;
use swf_text::{EntryLines, Fields, LINE_LIMIT, without_returns};

/// The greatest field.
const FIELD_LIMIT: u64 = 255;

fn insert<A: Allocator + Copy>(alloc: A, words: &[&[u8]]) -> Result<Command<A>, CommandFault>
    ensures { result ≡ insert_of (map (λ w. w.now) words.now) }
{
    if words.len() != 18 {
        return Err(CommandFault::Words);
    }
    match entry_values(words) {
        Ok(values) => {
            let entry = EntryLines::new(Fields(values), Vec::new(alloc)).unwrap();
            Ok(Command::Insert(entry))
        }
        Err(place) => Err(CommandFault::BadWord(place)),
    }
}

fn remove<A: Allocator + Copy>(words: &[&[u8]]) -> Result<Command<A>, CommandFault>
    ensures { result ≡ remove_of (map (λ w. w.now) words.now) }
{
    if words.len() != 1 {
        return Err(CommandFault::Words);
    }
    let number = number_between(words[0], 0, JOB_LIMIT).ok_or(CommandFault::BadWord(1))?;
    Ok(Command::Remove(number))
}

fn change<A: Allocator + Copy>(words: &[&[u8]]) -> Result<Command<A>, CommandFault>
    ensures { result ≡ change_of (map (λ w. w.now) words.now) }
{
    if words.len() != 3 {
        return Err(CommandFault::Words);
    }
    let number = number_between(words[0], 0, JOB_LIMIT).ok_or(CommandFault::BadWord(1))?;
    let field = number_between(words[1], 0, FIELD_LIMIT).ok_or(CommandFault::BadWord(2))?;
    let value = value_of(words[2]).ok_or(CommandFault::BadWord(3))?;
    Ok(Command::Change {
        number,
        field: field as u8,
        value,
    })
}

fn scenario_made<A: Allocator + Copy>(
    name: &[u8],
    procs: &[u8],
    factor: &[u8],
    order: Option<Order>,
) -> Result<Command<A>, CommandFault>
    ensures { result ≡ scenario_made name.now procs.now factor.now order }
{
    let name = ScenarioName::new(name).ok_or(CommandFault::BadWord(1))?;
    let procs = number_between(procs, 1, MAX_PROCS).ok_or(CommandFault::BadWord(2))?;
    let factor = number_between(factor, 1, MAX_FACTOR).ok_or(CommandFault::BadWord(3))?;
    let order = order.ok_or(CommandFault::BadWord(4))?;
    let scenario = Scenario::new(procs, factor).unwrap().ordered(order);
    Ok(Command::Scenario { name, scenario })
}

fn scenario<A: Allocator + Copy>(words: &[&[u8]]) -> Result<Command<A>, CommandFault>
    ensures { result ≡ scenario_of (map (λ w. w.now) words.now) }
{
    if words.len() == 3 {
        return scenario_made(words[0], words[1], words[2], Some(Order::Arrival));
    }
    if words.len() == 4 {
        return scenario_made(words[0], words[1], words[2], Order::of_word(words[3]));
    }
    Err(CommandFault::Words)
}

fn only_name(words: &[&[u8]]) -> Result<ScenarioName, CommandFault>
    ensures { result ≡ only_name (map (λ w. w.now) words.now) }
{
    if words.len() != 1 {
        return Err(CommandFault::Words);
    }
    ScenarioName::new(words[0]).ok_or(CommandFault::BadWord(1))
}

fn no_words(words: &[&[u8]]) -> Result<(), CommandFault>
    ensures { result ≡ no_words (map (λ w. w.now) words.now) }
{
    if words.is_empty() {
        Ok(())
    } else {
        Err(CommandFault::Words)
    }
}

fn command<A: Allocator + Copy>(
    alloc: A,
    keyword: Keyword,
    words: &[&[u8]],
) -> Result<Command<A>, CommandFault>
    ensures { result ≡ command_of keyword (map (λ w. w.now) words.now) }
{
    match keyword {
        Keyword::Insert => insert(alloc, words),
        Keyword::Remove => remove(words),
        Keyword::Change => change(words),
        Keyword::Scenario => scenario(words),
        Keyword::Drop => Ok(Command::Drop(only_name(words)?)),
        Keyword::Retry => Ok(Command::Retry(only_name(words)?)),
        Keyword::Settle => no_words(words).map(|()| Command::Settle),
        Keyword::Schedule => Ok(Command::Schedule(only_name(words)?)),
        Keyword::Table => Ok(Command::Table(only_name(words)?)),
        Keyword::Users => Ok(Command::Users(only_name(words)?)),
        Keyword::Days => Ok(Command::Days(only_name(words)?)),
        Keyword::Side => no_words(words).map(|()| Command::Side),
        Keyword::Log => Ok(Command::Log(only_name(words)?)),
        Keyword::Save => no_words(words).map(|()| Command::Save),
        Keyword::Version => no_words(words).map(|()| Command::Version),
        Keyword::Quit => no_words(words).map(|()| Command::Quit),
    }
}

fn command_of_words<A: Allocator + Copy>(
    alloc: A,
    words: &[&[u8]],
) -> Result<Option<Command<A>>, CommandFault>
    ensures { result ≡ command_of_words (map (λ w. w.now) words.now) }
{
    let Some((first, words)) = words.split_first() else {
        return Ok(None);
    };
    if first.first() == Some(&b'#') {
        return Ok(None);
    }
    let keyword = keyword_of(first).ok_or(CommandFault::Unknown)?;
    Ok(Some(command(alloc, keyword, words)?))
}

/// The command of a line of a script, given without its line feed; None where the line is blank or
/// its first byte that is no blank is `#`.
///
/// The faults in their order: TooLong, Unknown, Words, and BadWord with the first bad word. A job
/// number is digits, at most a trillion, the first word behind `insert` too; a field is digits, at
/// most 255; processors are 1 to 16,777,216 and a factor 1 to 100,000, in digits; an order is
/// `arrival` or `shortest`; other numbers are those of a log. Takes no memory.
pub fn parse_command<A: Allocator + Copy>(
    alloc: A,
    line: &[u8],
) -> Result<Option<Command<A>>, CommandFault>
    ensures { result ≡ command_of_line line.now }
{
    if line.len() > LINE_LIMIT {
        return Err(CommandFault::TooLong);
    }
    command_of_words(alloc, words_of(without_returns(line)).as_slice())
}
