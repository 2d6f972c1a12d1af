//! From a partly inlined tree of calls to one list of terms, and from values that answer it back to those of all terms.
#![tactic(auto)]

mod allowing;
mod asking;
mod formulas;
mod founding;
mod laws;
mod linking;
mod numbering;
mod opening;
mod questioning;
mod readying;
mod valuing;

pub use allowing::allowed;
pub use asking::QueryAnswer;
pub use formulas::Formulas;
pub use laws::{openings_are_bases, tables_are_walked};
pub use linking::linked;
pub use opening::{BaseTerms, base_terms};
pub use readying::{formulas_have_sites, tables_are_ready};
pub use valuing::term_values;
