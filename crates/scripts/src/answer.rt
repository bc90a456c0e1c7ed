ghost use Rattle.std.specs.Prelude.{◌≡◌, ◌+◌, ◌++◌, ◌≤◌, length};
ghost use Rattle.std.specs.Fmt.{decimal};
ghost use Rattle.scripts.specs.Lines.{scenario_line, behind_line, fault_line, refused};
ghost use Rattle.scripts.specs.Answered.{became_word, answer_line, scenario_outcome};

use crate::refusal_name::RefusalName;
use arrayvec::ArrayVec;
use commands::{CommandFault, ScenarioName};
use itoa::Buffer;
use version_book::{Named, Refusal};

/// No line that responds to a command has more bytes.
const CAPACITY: usize = 96;

/// What became of a scenario.
#[derive(Clone, Copy, Debug, PartialEq, Eq)]
pub(crate) enum Became {
    Added,
    Dropped,
    Retried,
}

/// A line that responds to a command. It allocates nothing.
#[derive(Drop)]
pub(crate) enum Answer {
    /// The log's version.
    Version(u64),
    /// What became of the scenario with this name.
    Scenario { name: ScenarioName, became: Became },
    /// The command was refused, with this name.
    Refused(RefusalName),
    /// A scenario shows an older version than the session has seen.
    Behind { seen: u64, found: u64 },
    /// The line with this number is no command.
    Fault { line: u64, fault: CommandFault },
    /// Every scenario shows the version that the session has seen, or a newer one.
    Settled { seen: u64 },
    /// This many scenarios don't, and are given up.
    Failed { count: u64 },
    /// Some don't, and the work was stopped.
    Stopped,
    /// This many lines of a saved log follow.
    Saved { lines: u64 },
    /// The session ends.
    Bye,
}

impl Became {
    fn word(&self) -> &'static str
        ensures word { result.now ≡ became_word self.now }
        ensures short { length result.now ≤ 16 }
    {
        match self {
            Became::Added => "added",
            Became::Dropped => "dropped",
            Became::Retried => "retried",
        }
    }
}

fn push_all(text: &mut ArrayVec<u8, CAPACITY>, bytes: &[u8])
    requires { length text.old.items + length bytes.now ≤ 96 }
    ensures { text.new.items ≡ text.old.items ++ bytes.now }
{
    for byte in bytes {
        text.push(*byte);
    }
}

fn push_number(text: &mut ArrayVec<u8, CAPACITY>, number: u64)
    requires { length text.old.items + 20 ≤ 96 }
    ensures added { text.new.items ≡ text.old.items ++ decimal number }
    ensures most { length text.new.items ≤ length text.old.items + 20 }
{
    let mut buffer = Buffer::new();
    push_all(text, buffer.format(number).as_bytes());
}

fn numbered(front: &[u8], number: u64, back: &[u8]) -> ArrayVec<u8, CAPACITY>
    requires front { length front.now ≤ 24 }
    requires back { length back.now ≤ 8 }
    ensures line { result.items ≡ front.now ++ decimal number ++ back.now }
    ensures short { length result.items ≤ 52 }
{
    let mut text = ArrayVec::new();
    push_all(&mut text, front);
    push_number(&mut text, number);
    push_all(&mut text, back);
    text
}

fn worded(front: &[u8], word: &str, back: &[u8]) -> ArrayVec<u8, CAPACITY>
    requires front { length front.now ≤ 16 }
    requires word { length word.now ≤ 16 }
    requires back { length back.now ≤ 16 }
    ensures { result.items ≡ front.now ++ word.now ++ back.now }
{
    let mut text = ArrayVec::new();
    push_all(&mut text, front);
    push_all(&mut text, word.as_bytes());
    push_all(&mut text, back);
    text
}

fn scenario_text(name: &ScenarioName, became: Became) -> ArrayVec<u8, CAPACITY>
    ensures { result.items ≡ scenario_line name.now (became_word became) }
{
    let mut text = worded(b"scenario ", name.as_str(), b" ");
    push_all(&mut text, became.word().as_bytes());
    push_all(&mut text, b"\n");
    text
}

fn behind_text(seen: u64, found: u64) -> ArrayVec<u8, CAPACITY>
    ensures { result.items ≡ behind_line seen found }
{
    let mut text = numbered(b"refused Behind seen ", seen, b" found ");
    push_number(&mut text, found);
    push_all(&mut text, b"\n");
    text
}

fn fault_text(line: u64, fault: CommandFault) -> ArrayVec<u8, CAPACITY>
    ensures { result.items ≡ fault_line line fault }
{
    let mut text = numbered(b"fault line ", line, b" ");
    push_all(&mut text, fault.name().as_bytes());
    if let CommandFault::BadWord(place) = fault {
        push_all(&mut text, b" ");
        push_number(&mut text, u64::from(place));
    }
    push_all(&mut text, b"\n");
    text
}

impl Answer {
    /// The line that a command is refused for this refusal or fault.
    pub(crate) fn refused<N: Named>(why: &N) -> Answer
        ensures { answer_line result ≡ refused (N.name why.now) }
    {
        Answer::Refused(RefusalName::of(why))
    }

    pub(crate) fn of_scenario<T: Copy, F: Named + Copy>(
        name: ScenarioName,
        became: Became,
        outcome: Result<T, Refusal<F>>,
    ) -> Answer
        ensures { answer_line result ≡ scenario_outcome name became F.name outcome }
    {
        match outcome {
            Ok(_) => Answer::Scenario { name, became },
            Err(refusal) => Answer::refused(&refusal),
        }
    }

    /// The line, with its line feed.
    pub(crate) fn line(&self) -> ArrayVec<u8, CAPACITY>
        ensures { result.items ≡ answer_line self.now }
    {
        match self {
            Answer::Version(version) => numbered(b"version ", *version, b"\n"),
            Answer::Scenario { name, became } => scenario_text(name, *became),
            Answer::Refused(name) => worded(b"refused ", name.as_str(), b"\n"),
            Answer::Behind { seen, found } => behind_text(*seen, *found),
            Answer::Fault { line, fault } => fault_text(*line, *fault),
            Answer::Settled { seen } => numbered(b"settled ", *seen, b"\n"),
            Answer::Failed { count } => numbered(b"failed ", *count, b"\n"),
            Answer::Stopped => worded(b"stopped", "", b"\n"),
            Answer::Saved { lines } => numbered(b"save ", *lines, b"\n"),
            Answer::Bye => worded(b"bye", "", b"\n"),
        }
    }
}
