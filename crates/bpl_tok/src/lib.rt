//! Cuts a Boogie source into tokens.
#![tactic(auto)]

mod laws;
mod lexing;
mod piece;
mod token;

pub use laws::{reading_cuts, tokens_lie_in_source};
pub use lexing::tokens;
pub use token::{LexFault, LexKind, Terminal, TokKind, Token};
