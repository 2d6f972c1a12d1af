//! What the verdict of a book says of the program whose flat program it searches: Bug comes with the choices on which the machine
//! fails, Safe only where no list of choices fails.
#![tactic(auto)]

mod judging;
mod laws;

pub use judging::{Judgement, judge};
pub use laws::{bug_books_have_runs, found_runs_fail, safe_books_are_safe};
