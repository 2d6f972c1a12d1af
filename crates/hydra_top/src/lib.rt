//! The top call: the words, a shelf of files and a sink in, a report out. It does all that the
//! program does, so its contract is what the program promises.
#![tactic(auto)]

mod answer;
mod entry;
mod laws;
pub mod outcome;
pub mod reading;
pub mod refusal;
mod retracing;
mod showing;
mod solving;
pub mod top;
pub mod trees;
pub mod words;
pub mod writing;

pub use laws::reading_is_determined;
pub use outcome::{NotBuilt, Outcome, Refusal, Report};
pub use top::run_solo;

#[cfg(test)]
mod tests;
