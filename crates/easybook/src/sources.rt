// `known` has the bytes of each name, where they are known.
use std::io::Read;
use std::rt::Files;
use std::{fs, io};

/// What a log or a script that the program's words name stands in.
pub trait Sources {
    ghost use Rattle.std.specs.Prelude.{◌≡◌, ℕ, List, Option, Some, None, IfOk, IfSome};

    /// What is read of one name.
    type Source: Read + Drop;

    ghost known: { Self → List ℕ → Option (List ℕ) } = { λ _ _. None };

    /// Opens what has this name.
    fn source(&self, name: &str) -> io::Result<Self::Source>
        ensures { IfOk result (λ source. IfSome (known self.now name.now) (λ bytes. Self.Source.remaining source ≡ Some bytes)) };
}

/// The files of the machine, of which nothing is known.
#[derive(Drop)]
pub struct NamedFiles<'a, F: Files> {
    files: &'a F,
}

impl<'a, F: Files> NamedFiles<'a, F> {
    /// The files that this handle opens.
    pub fn new(files: &'a F) -> NamedFiles<'a, F> {
        NamedFiles { files }
    }
}

impl<'a, F: Files> Sources for NamedFiles<'a, F> {
    type Source = F::File;

    fn source(&self, name: &str) -> io::Result<F::File> {
        fs::open(self.files, name)
    }
}
