//! What is read and what is told of small sources.

mod decisions;
mod forms;
mod left_out;
mod nesting;

use bpl_parse::{ParseFault, parse};
use bpl_tok::{LexFault, tokens};
use hy_text::Or;
use std::alloc::Global;

// The fault that is told of a source, and nothing where it is a program.
fn fault_of(alloc: Global, source: &[u8]) -> Result<Option<ParseFault>, Or<LexFault>> {
    let tokens = tokens(alloc, source)?;
    match parse(alloc, source, tokens.as_slice()) {
        Ok(_) => Ok(None),
        Err(Or::Fault(fault)) => Ok(Some(fault)),
        Err(Or::NoMemory) => Err(Or::NoMemory),
    }
}
