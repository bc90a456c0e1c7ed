ghost use Rattle.version_book.specs.MainTheorem.{MainTheorem};

use book_machine::laws::{each_version_keeps_its_log, versions_never_go_down};
use checkpoints::laws::each_run_is_simulated;

/// After any list of edits and other calls from any sessions, in every order with the workers' claims
/// and their late, repeated or foreign results, the starts, the schedule and the tables published for a
/// scenario at a version are those that the second-by-second EASY simulation of that version's log gives
/// from its first second on, and a scenario's published version never goes down while it stands.
pub fn main_theorem()
    ensures { MainTheorem }
{
    each_version_keeps_its_log();
    versions_never_go_down();
    each_run_is_simulated();
}
