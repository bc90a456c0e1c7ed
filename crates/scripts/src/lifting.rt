/// Two sets of rules for analysts, and the map from the states of the first to those of the second. A law
/// speaks of all such pairs; no value is one.
pub trait Lifting {
    ghost use Rattle.version_book.specs.Rules.{Rules};

    /// The state of the first.
    ghost State: { Type 0 };

    /// The state of the second.
    ghost Place: { Type 0 };

    /// The rules of the first.
    ghost outcome: { Rules State };

    /// The rules of the second.
    ghost known: { Rules Place };

    /// The state of the second that belongs to one of the first.
    ghost at: { State → Place };

    /// The invariant of the states that the first reaches.
    ghost Inv: { State → Type 0 };

    /// What is known of a state only at the end.
    ghost Good: { State → Type 0 };
}
