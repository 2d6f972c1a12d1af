//! Tests of call trees and of their frontier, each over public calls: caps, pieces, open sites, inlining and what a run reaches. The
//! crate has no code.
#![tactic(auto)]

#[cfg(test)]
mod codes;
#[cfg(test)]
mod growing;
#[cfg(test)]
mod naming;
#[cfg(test)]
mod paths;
#[cfg(test)]
mod programs;
#[cfg(test)]
mod runs;
