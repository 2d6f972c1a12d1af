//! Whether two trees are alike: equal but for the offsets of their tokens, and with the brackets after an operand as one list.
//! Where three parts or more are compared, the conjunctions group from the right, so that each part that differs is an answer.
#![tactic(auto)]

mod decls;
mod exprs;
mod lists;
mod names;
mod sorts;
mod stmts;
mod tree;

pub use tree::alike;
