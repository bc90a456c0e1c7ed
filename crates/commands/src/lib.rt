//! The commands of a script, and what is kept in a log's comments: its scenarios.
#![tactic(auto)]

mod command;
mod comment;
mod fault;
mod keyword;
mod laws;
mod name;
mod opening;
mod opening_fault;
mod parse;
mod saving;
mod values;
mod words;

pub use command::Command;
pub use comment::{ScenarioLine, scenario_line};
pub use fault::CommandFault;
pub use laws::saved_again_law;
pub use name::ScenarioName;
pub use opening::{Opening, open_text};
pub use opening_fault::OpenTextFault;
pub use parse::parse_command;
pub use saving::save_text;
pub use values::number_between;
