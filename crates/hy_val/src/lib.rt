//! Values of Boogie's finite sorts, SMT-LIB's operators on bit vectors, and expressions over them
//! with their evaluation.
#![tactic(auto)]

mod atom;
mod bits;
mod builder;
mod evaluation;
mod expr;
mod known;
mod laws;
mod map;
mod node_sort;
mod operation;
mod operator;
mod plain;
mod result;
mod sort;
mod value;
mod whole;

pub use atom::{Atom, AtomKind, BitVec};
pub use builder::ExprBuilder;
pub use evaluation::eval;
pub use expr::{Env, Expr, ExprNode, Var};
pub use laws::{
    children_are_lower, each_node_has_its_sort, each_node_is_by_cases,
    fitting_expressions_have_their_sorts, maps_that_agree_are_equal, only_variables_matter,
    renaming_keeps, stores_write_at_one, values_keep_sorts,
};
pub use map::{MapValue, select, store};
pub use operation::{apply, apply1};
pub use operator::{BvOp, UnOp};
pub use plain::eval_plain;
pub use result::{sort_of_binary, sort_of_unary};
pub use sort::{Scalar, ScalarKind, Sort, SortKind, Width};
pub use value::Value;
