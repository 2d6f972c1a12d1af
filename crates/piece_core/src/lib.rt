//! The book of a search (after Hydra, FMCAD 2020): the pieces into which it is divided, the events booked on them, the evidence of each
//! piece that is closed or in which something failed, and the verdict read off it.
#![tactic(auto)]

mod bookings;
mod books;
mod calls;
mod events;
mod growths;
mod laws;
mod leaves;
mod refusals;
mod sights;
mod tasks;
mod verdicts;
mod writes;

pub use books::Book;
pub use calls::{BookCall, any_run};
pub use events::{Entry, Event};
pub use laws::{faults_are_found, journals_are_bounded, journals_cover, whole_searches_begin};
pub use leaves::{Leaf, Status2, StatusKind};
pub use refusals::EventRefusal;
pub use sights::Sight;
pub use tasks::Task;
pub use verdicts::Verdict2;
