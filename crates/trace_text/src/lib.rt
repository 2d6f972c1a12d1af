//! The text of traces: what a failing run takes, line by line, and the assert that is false then.
#![tactic(auto)]

pub mod laws;
pub mod printing;
pub mod reading;
pub mod trace;
pub mod values;
pub mod writing;

pub use printing::print;
pub use reading::read;
pub use trace::{Trace, TraceFault, TraceItem, TraceKind};
pub use values::put_value;
pub use writing::write;
