ghost use Rattle.std.specs.Prelude.{◌≡◌, ◌≤◌, ◌⊎◌, ℕ, ℤ, List, nat_abs};
ghost use Rattle.std.specs.List.{AllByRecursion};
ghost use Rattle.swf_text.specs.Number.{Spells, canonical, greatest};
ghost use Rattle.swf_text.specs.Text.{LogText, lines};
ghost use Rattle.swf_text.specs.Grammar.{IsText, FirstFault, IsLeastNoText};
ghost use Rattle.swf_text.specs.declared.fault.SwfFault.{SwfFault};
ghost use Rattle.swf_text.specs.Comment.{IsComment};
ghost use Rattle.swf_text.specs.Writing.{text_bytes};

/// What is read, written and read again is the same log, and written again it gives the same
/// bytes: lines are one log alone, each comment of a log that was read is sound, and the text of
/// such a log is read as that log.
pub fn round_trip_law()
    ensures one_text { (ls : List (List ℕ)) (t u : LogText) → IsText ls t → IsText ls u → u ≡ t }
    ensures comments { (bytes : List ℕ) (t : LogText) → IsText (lines bytes) t → AllByRecursion IsComment t.comments }
    ensures read_again { (bytes : List ℕ) (t : LogText) → IsText (lines bytes) t → IsText (lines (text_bytes t)) t }
    ensures same_bytes { (bytes : List ℕ) (t u : LogText) → IsText (lines bytes) t → IsText (lines (text_bytes t)) u → text_bytes u ≡ text_bytes t }
{}

/// Each log is a text or has a first fault, and never both. The first lines up to that fault are no
/// text, and fewer of them are one, however many; and there is but one first fault, of one line and
/// one kind.
pub fn first_fault_law()
    ensures either { (ls : List (List ℕ)) → ((t : LogText) × IsText ls t) ⊎ ((fault : SwfFault) × FirstFault ls fault) }
    ensures not_both { (ls : List (List ℕ)) (t : LogText) (fault : SwfFault) → IsText ls t → FirstFault ls fault → ⊥ }
    ensures least { (ls : List (List ℕ)) (fault : SwfFault) → FirstFault ls fault → IsLeastNoText ls fault.line }
    ensures unique { (ls : List (List ℕ)) (fault other : SwfFault) → FirstFault ls fault → FirstFault ls other → other ≡ fault }
{}

/// The spelling in which a value is written is one of those in which it can be read.
pub fn spelling_law()
    ensures { (v : ℤ) → nat_abs v ≤ greatest → Spells (canonical v) v }
{}
