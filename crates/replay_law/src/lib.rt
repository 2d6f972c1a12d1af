//! Laws of the replay of a printed trace: a text has one answer, and the text that is printed of a failing run is replayed as that
//! run.
#![tactic(auto)]

mod laws;

pub use laws::{printed_traces_are_replayed, replays_are_determined};
