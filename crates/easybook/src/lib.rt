//! The program's calls: its words, its input, the plain run from a log to its schedule, the session
//! that works a script on a log, and scripts side by side: several analysts on one log, each with a
//! session at one desk and on a thread of its own, while workers simulate.
#![tactic(auto)]

mod alone;
mod answered;
mod book;
mod desk_session;
mod fault;
mod input;
mod laws;
mod live;
mod opened;
mod options;
mod plain;
mod program;
mod script_list;
mod script_thread;
mod shared;
mod sources;
mod split;
mod stop;
mod threads;
mod words;
mod worker_thread;
mod works;

pub use alone::run_alone;
pub use fault::ProgramFault;
pub use input::read_input;
pub use laws::{log_words_law, plain_run_law, script_law, words_law};
pub use live::run_live;
pub use options::Options;
pub use parallel_reader::read_parallel;
pub use plain::run_plain;
pub use program::{run_named_words, run_words};
pub use shared::{run_shared, run_shared_gated};
pub use sources::{NamedFiles, Sources};
pub use split::split_input;
pub use stop::Stop;
pub use words::{Words, WordsFault, read_words};
