//! The source program that everything runs on: names as numbers, statements as numbered blocks, loops beside them.
#![tactic(auto)]

mod block;
mod proc;
mod prog;

pub use block::{Cmd, Next, SrcBlock};
pub use proc::{Named, SrcLoop, SrcProc};
pub use prog::Prog;
