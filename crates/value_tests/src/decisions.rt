//! Questions with known answers, and some hundreds beside a search over all values.

mod digits;
mod questions;
mod search;
mod shapes;
mod table;
mod values;
