//! The canonical text of a program: one space between two tokens, a line for each command, and only the parentheses that the
//! tree needs.
#![tactic(auto)]

mod commands;
mod decls;
mod exprs;
mod laws;
mod lists;
mod names;
mod phrase;
mod program;
mod stmts;
mod tokens;

pub use laws::shown_in_lines;
pub use phrase::Phrase;
pub use program::show;
