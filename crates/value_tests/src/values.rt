//! Expressions, operators and maps, with values from outside.

mod building;
mod evaluation;
mod maps;
mod operators;
