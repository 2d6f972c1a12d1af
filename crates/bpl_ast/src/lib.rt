//! The tree of a program: one struct or enum per rule of the grammar, one variant per alternative, its parts in the order of
//! the rule. `at` is the offset of the first token in the source. Parentheses leave no node.
#![tactic(auto)]

mod decl;
mod expr;
mod name;
mod sort;
mod stmt;
mod word;

pub use decl::{
    Ast, Axiom, Body, Constants, Decl, Function, FunctionArgument, FunctionResult, Group, Heads,
    Implementation, Modifies, ParameterGroup, Procedure, Synonym, Variables,
};
pub use expr::{Bracket, Expr};
pub use name::{Attribute, Lexeme, Name};
pub use sort::Sort;
pub use stmt::{Else, Guard, If, Invariant, Stmt, Target};
pub use word::Word;
