ghost use Rattle.std.specs.Prelude.{◌≡◌};
ghost use Rattle.commands.specs.Commands.{keyword_of};

/// The first word of a command.
#[derive(Clone, Copy)]
pub(crate) enum Keyword {
    Insert,
    Remove,
    Change,
    Scenario,
    Drop,
    Retry,
    Settle,
    Schedule,
    Table,
    Users,
    Days,
    Side,
    Log,
    Save,
    Version,
    Quit,
}

/// The commands by their words.
const KEYWORDS: [(&[u8], Keyword); 16] = [
    (b"insert", Keyword::Insert),
    (b"remove", Keyword::Remove),
    (b"change", Keyword::Change),
    (b"scenario", Keyword::Scenario),
    (b"drop", Keyword::Drop),
    (b"retry", Keyword::Retry),
    (b"settle", Keyword::Settle),
    (b"schedule", Keyword::Schedule),
    (b"table", Keyword::Table),
    (b"users", Keyword::Users),
    (b"days", Keyword::Days),
    (b"side", Keyword::Side),
    (b"log", Keyword::Log),
    (b"save", Keyword::Save),
    (b"version", Keyword::Version),
    (b"quit", Keyword::Quit),
];

pub(crate) fn keyword_of(word: &[u8]) -> Option<Keyword>
    ensures { result ≡ keyword_of word.now }
{
    KEYWORDS
        .iter()
        .find(|entry| entry.0 == word)
        .map(|entry| entry.1)
}
