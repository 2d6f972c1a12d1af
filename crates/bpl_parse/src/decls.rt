//! Declarations.

mod functions;
mod groups;
mod procedures;
mod programs;
mod types;

pub use functions::{axiom, function};
pub use groups::{globals, heads, variables};
pub use procedures::{implementation, procedure};
pub use programs::program;
pub use types::{constants, synonym};
