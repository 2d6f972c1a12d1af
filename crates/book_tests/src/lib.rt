//! Tests of the book over its public calls: opening, taking and giving back, each with its refusals, and size. The crate has no code.
#![tactic(auto)]

#[cfg(test)]
mod holds;
#[cfg(test)]
mod programs;
