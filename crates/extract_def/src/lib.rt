//! What loop extraction makes of a program: the flat program, in which each loop is a procedure
//! that calls itself, and what each block of it comes from (Corral, CAV 2012).
#![tactic(auto)]

mod edge;
mod extracted;
mod laws;
mod origin;
mod scope;

pub use edge::{Dest, Edge};
pub use extracted::Extracted;
pub use laws::extraction_is_flat;
pub use origin::Origin;
pub use scope::Scope;
