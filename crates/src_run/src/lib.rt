//! The machine: what a run of the source program does on a list of choices, its replay, and the search over all lists for the
//! plain programs that ask for few bools.
#![tactic(auto)]

mod asking;
mod choosing;
mod edges;
mod machine;
mod plain;
mod replaying;
mod running;
mod searching;
mod state;
mod stepping;
mod uniques;

pub use asking::{Run, asked, whole_run};
pub use machine::{Choice, Status};
pub use plain::is_plain;
pub use replaying::replay;
pub use searching::{Failing, search};
