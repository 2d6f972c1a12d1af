//! The tree of a file, or why the file is refused before it has one.

ghost use Rattle.std.specs.Prelude.{◌≡◌, ◌≤◌, List, ℕ, Ok, length};
ghost use Rattle.bpl_tok.specs.Lexed.{tokens_of};
ghost use Rattle.hydra_top.specs.Opened.{RefusesFirst};
ghost use Rattle.hydra_top.specs.Reading.{IsSource, limit};
ghost use Rattle.hydra_top.specs.Trees.{IsTreeOf};

use crate::outcome::Refusal;
use crate::reading::Source;
use bpl_ast::Ast;
use bpl_parse::parse;
use bpl_tok::{Token, tokens};
use hy_text::Or;
use std::alloc::Global;

/// The tree of what was read of a file: it is cut into tokens, and these are read by the grammar.
/// A file that is too long is refused, then one with a fault in its tokens, then one with a fault
/// in its grammar; the first fault is told.
pub fn read_tree(alloc: Global, source: &Source) -> Result<Ast, Or<Refusal>>
    ensures tree { (bytes : List ℕ) → IsSource bytes source.now → IsTreeOf bytes result }
    ensures first { RefusesFirst result }
{
    match source {
        Source::Whole(bytes) => cut(alloc, bytes.as_slice()),
        Source::TooLong => Err(Or::Fault(Refusal::TooLong { second: false })),
    }
}

// The tree of bytes.
fn cut(alloc: Global, bytes: &[u8]) -> Result<Ast, Or<Refusal>>
    ensures tree { length bytes.now ≤ limit → IsTreeOf bytes.now result }
    ensures first { RefusesFirst result }
{
    match tokens(alloc, bytes) {
        Ok(found) => parsed(alloc, bytes, found.as_slice()),
        Err(Or::Fault(fault)) => Err(Or::Fault(Refusal::Lex(fault))),
        Err(Or::NoMemory) => Err(Or::NoMemory),
    }
}

// The tree of the tokens of bytes.
fn parsed(alloc: Global, bytes: &[u8], tokens: &[Token]) -> Result<Ast, Or<Refusal>>
    requires { tokens_of bytes.now ≡ Ok tokens.now }
    ensures tree { length bytes.now ≤ limit → IsTreeOf bytes.now result }
    ensures first { RefusesFirst result }
{
    match parse(alloc, bytes, tokens) {
        Ok(tree) => Ok(tree),
        Err(Or::Fault(fault)) => Err(Or::Fault(Refusal::Parse(fault))),
        Err(Or::NoMemory) => Err(Or::NoMemory),
    }
}
