ghost use Rattle.chronicle.specs.Laws.{EachBeginningLeadsOn, NotesBeginToo};

/// Each beginning of a legal history is legal, and the rest is legal from the state after it.
pub fn each_beginning_leads_on()
    ensures { EachBeginningLeadsOn }
{}

/// The calls of a beginning are a beginning of the calls.
pub fn notes_begin_too()
    ensures { NotesBeginToo }
{}
