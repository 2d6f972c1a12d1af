//! Tests of the solver, each over public calls: formulas and logs, the checker of logs, the search,
//! and the store with watches. The crate has no code.
#![tactic(auto)]

#[cfg(test)]
mod formulas;
#[cfg(test)]
mod logs;
#[cfg(test)]
mod solver;
#[cfg(test)]
mod watches;
