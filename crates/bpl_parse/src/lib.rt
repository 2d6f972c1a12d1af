//! Reads the tokens of a program.
#![tactic(auto)]

mod decls;
mod error;
mod exprs;
mod fault;
mod identifiers;
mod lists;
mod parsing;
mod parts;
mod place;
mod reading;
mod sorts;
mod stmts;
mod tokens;
mod told;

pub use error::ReadError;
pub use fault::{ParseFault, ParseKind};
pub use parsing::parse;
pub use parts::{CalledRest, IfRest, ImplicationTail, Level, LogicTail, NamedRest, RelationTail};
pub use place::{Place, StopKind};
pub use reading::{MAX_NESTING, grammar_is_exact};
pub use told::tell;
