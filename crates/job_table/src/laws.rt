ghost use Rattle.std.specs.Prelude.{◌≡◌, ℕ, ◌+◌, List, Some, None, slice_get};
ghost use Rattle.swf_text.specs.Entry.{LogEntry};
ghost use Rattle.job_table.specs.Accepted.{AreAccepted, IsEdit};
ghost use Rattle.job_table.specs.Arranged.{LogIsRising, LogIsTheOnlyOne};
ghost use Rattle.job_table.specs.Edit.{LogEdit, applied, fault_of, log_at};
ghost use Rattle.job_table.specs.Table.{IsTable};

/// The log of a collection of entries, no two of which have one job number, is the one arrangement
/// of them that rises by submit second and job number.
pub fn a_log_is_the_one_rising_arrangement()
    ensures rising { LogIsRising }
    ensures only { LogIsTheOnlyOne }
{}

/// The log of version 0 is the opening log, and that of the next version is the log of this one
/// after the next accepted edit.
pub fn each_edit_makes_the_next_version()
    ensures opening { (opening : List LogEntry) (accepted : List LogEdit) → log_at opening accepted 0 ≡ opening }
    ensures next { (opening : List LogEntry) (accepted : List LogEdit) (version : ℕ) (edit : LogEdit) → slice_get accepted version ≡ Some edit → log_at opening accepted (version + 1) ≡ applied edit (log_at opening accepted version) }
{}

/// What an accepted edit makes of a log is a log, and so is the log of each version.
pub fn accepted_edits_make_logs()
    ensures edit { (log : List LogEntry) (edit : LogEdit) → IsTable log → IsEdit edit → fault_of edit log ≡ None → IsTable (applied edit log) }
    ensures versions { (opening : List LogEntry) (accepted : List LogEdit) → IsTable opening → AreAccepted opening accepted → (version : ℕ) → IsTable (log_at opening accepted version) }
{}
