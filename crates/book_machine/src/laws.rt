ghost use Rattle.book_machine.specs.Laws.{VersionsNeverGoDown, NoVersionIsAhead, NoIdIsGivenTwice, NoTicketIsGivenTwice};
ghost use Rattle.book_machine.specs.Sound.{EachStateIsSound};
ghost use Rattle.book_machine.specs.Versions.{EachVersionWasAccepted, EachVersionKeepsItsLog, TheEditsAreThoseNoted};

/// Over every history, and every way in which it goes on, a scenario's published version never goes
/// down while its id stands.
pub fn versions_never_go_down()
    ensures { VersionsNeverGoDown }
{}

/// No version is published that was not yet made.
pub fn no_version_is_ahead()
    ensures { NoVersionIsAhead }
{}

/// The ids of the scenarios that are added count up, so none is given twice, also after a drop.
pub fn no_id_is_given_twice()
    ensures { NoIdIsGivenTwice }
{}

/// The tickets of the claims count up, so none is given twice.
pub fn no_ticket_is_given_twice()
    ensures { NoTicketIsGivenTwice }
{}

/// Every state of a legal history is sound: what is published, marked and claimed is of versions that
/// were made and of scenarios that stand, and no number passes that of the notes.
pub fn every_state_is_sound()
    ensures { EachStateIsSound }
{}

/// A version is made by an accepted edit and by nothing else; the notes alone tell these edits; and a
/// version's log stays what it was, whatever is called later.
pub fn each_version_keeps_its_log()
    ensures accepted { EachVersionWasAccepted }
    ensures noted { TheEditsAreThoseNoted }
    ensures kept { EachVersionKeepsItsLog }
{}
