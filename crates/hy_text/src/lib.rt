//! Text, bytes and decimal numbers, which contracts see as lists of bytes.
#![tactic(auto)]

pub mod bytes;
pub mod number;
pub mod refusal;
pub mod text;

pub use bytes::Bytes;
pub use number::{NumFault, put_u64, read_u64};
pub use refusal::Or;
pub use text::Text;
