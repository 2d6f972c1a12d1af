//! Reads the words of the command line as a command, or names the first word that is at fault.
#![tactic(auto)]

mod command;
mod laws;
mod numbers;
mod options;
mod reading;

pub use command::{Command, WordFault, WordKind};
pub use laws::{commands_are_read_exactly, faults_are_first, options_stand_in_either_order};
pub use reading::read_words;
