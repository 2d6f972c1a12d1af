//! The text of a book's journal: a head with the number of events, and a line for each event.
#![tactic(auto)]

mod printing;

pub use printing::put_journal;
