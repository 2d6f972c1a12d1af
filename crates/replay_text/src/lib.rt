//! The replay of a printed trace: whether a text is the trace of a failing run of a program's entry within a bound, and if not,
//! why.
#![tactic(auto)]

pub mod lines;
pub mod replaying;

pub use lines::first_difference;
pub use replaying::{Replayed, replay_trace};
