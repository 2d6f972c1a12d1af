//! Tests of flat programs, of loop extraction and of the way back from a failing run tree, each over public
//! calls and from the text of a program on. The crate has no code.
#![tactic(auto)]

#[cfg(test)]
mod extracting;
#[cfg(test)]
mod frames;
#[cfg(test)]
mod listing;
#[cfg(test)]
mod outcomes;
#[cfg(test)]
mod programs;
#[cfg(test)]
mod replaying;
#[cfg(test)]
mod sizes;
#[cfg(test)]
mod sorts;
#[cfg(test)]
mod tables;
#[cfg(test)]
mod trees;
#[cfg(test)]
mod wholes;
