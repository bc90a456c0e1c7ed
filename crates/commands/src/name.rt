ghost use Rattle.std.specs.Prelude.{◌≡◌, true};
ghost use Rattle.scenarios.specs.Name.{is_name};
ghost use Rattle.commands.specs.Words.{name_of};

use arrayvec::ArrayString;
use scenarios::is_name;
use std::marker::Model;
use std::str;

/// The most bytes of a name.
const NAME_CAPACITY: usize = 16;

/// A scenario's name: 1 to 16 bytes of `a` to `z`, `0` to `9`, `-` and `_`.
#[derive(Drop)]
pub struct ScenarioName {
    text: ArrayString<NAME_CAPACITY>,
}

impl Model for ScenarioName {
    ghost use Rattle.std.specs.Prelude.{◌≡◌, ℕ, List, true};
    ghost use Rattle.scenarios.specs.Name.{is_name};

    ghost Value = { List ℕ };

    ghost view = { λ n. n.text.bytes };

    ghost invariant = { λ n. is_name n.text.bytes ≡ true };
}

impl ScenarioName {
    /// The name of these bytes; None where they are no name. Takes no memory.
    pub fn new(bytes: &[u8]) -> Option<ScenarioName>
        ensures { result ≡ name_of bytes.now }
    {
        if !is_name(bytes) {
            return None;
        }
        let mut text = ArrayString::new();
        text.push_str(str::from_utf8(bytes).unwrap());
        Some(ScenarioName { text })
    }

    /// The name's text.
    pub fn as_str(&self) -> &str
        ensures text { result.now ≡ self.now }
        ensures name { is_name self.now ≡ true }
    {
        self.text.as_str()
    }
}
