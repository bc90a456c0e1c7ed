ghost use Rattle.commands.specs.Laws.{SavesEditedBytes, SavesSoundComments, SavesTheSame, SavesTheSameBytes};

/// A log with at least one scenario that was opened, edited and saved is the same, byte for byte,
/// when it is read, opened and saved again: its comments are sound where those of the opened log
/// are, as those of a log that was read, so that it is read back as it was written; what is saved of
/// it again is the same log; and so its bytes are the same, whatever was edited before, and
/// whatever machine is named.
pub fn saved_again_law()
    ensures sound { SavesSoundComments }
    ensures same { SavesTheSame }
    ensures edited { SavesEditedBytes }
    ensures bytes { SavesTheSameBytes }
{}
