//! The law of printing and reading a program.
#![tactic(auto)]

mod round;

pub use round::shown_reads_alike;
