//! The passes of typing: names resolved, sorts checked, and the first fault of each pass.
#![tactic(auto)]

pub mod bodies;
mod circle;
pub mod commands;
pub mod exprs;
pub mod fault;
pub mod heads;
mod indexed;
pub mod known;
mod meaning;
mod misfit;
pub mod numbers;
mod operand;
pub mod order;
mod repeats;
mod running;
pub mod scopes;
pub mod sorts;
mod spaces;
mod stmts;
pub mod tabled;
pub mod tables;
pub mod twice;
pub mod types;
pub mod uses;
