//! Terms without maps, turned into nets of gates. The circuits are over words of wires, and each carries the value of an
//! operator on bit vectors for every choice of the inputs.
#![tactic(auto)]

mod adder;
mod bitwise;
mod blasting;
mod compare;
mod divide;
mod layout;
mod literal;
mod multiply;
mod operator;
mod places;
mod reading;
mod shift;
mod signed;
mod word;

pub use adder::{BitSum, WordSum, add_with_carry, bvadd, bvneg, bvsub, full_adder, subtract};
pub use bitwise::{bvand, bvnot, bvor, bvxor, choose, masked, negated, turned};
pub use blasting::blast;
pub use compare::{any, bvsle, bvslt, bvule, bvult, equal};
pub use divide::{Division, divide_words};
pub use layout::{Direction, concat, extract, joined, moved, sign_extend, zero_extend};
pub use multiply::bvmul;
pub use reading::{inputs_of_variables, read_back};
pub use shift::{barrel, bvashr, bvlshr, bvshl};
pub use signed::{absolute, bvsdiv, bvsmod, bvsrem, negated_if};
pub use word::{Pairing, inputs, push, repeated, zip};
