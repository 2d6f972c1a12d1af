//! Statements.

mod blocks;
mod guards;
mod named;
mod simple;

pub use blocks::statements;
