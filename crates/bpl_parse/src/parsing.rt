//! Reads a program, and tells where it stops being one.

ghost use Rattle.bpl_parse.specs.Decls.{levels, whole};
ghost use Rattle.bpl_parse.specs.Promises.{IsTold, IsTree, Reads};
ghost use Rattle.bpl_rules.specs.Reading.{AreFronts};
ghost use Rattle.std.specs.Prelude.{IfErr, IfOk};

use crate::decls::program;
use crate::error::ReadError;
use crate::fault::ParseFault;
use crate::reading::MAX_NESTING;
use crate::told::tell;
use bpl_ast::Ast;
use bpl_tok::Token;
use hy_text::Or;
use std::alloc::Global;

/// The tree of a program, from the tokens of its source; names and lexemes have the bytes that their tokens take there.
///
/// A fault is told at the first token that continues no program, however deep that nests, or that opens a level past
/// [`MAX_NESTING`], or at the end of the source where the tokens end inside a declaration. Where the token begins a
/// form that is left out, the fault says which. Two faults are told by a second token: a number after the `[` of an
/// operand that no `:` follows is itself told, and `free` before a word of a contract is told at that word.
pub fn parse(alloc: Global, source: &[u8], tokens: &[Token]) -> Result<Ast, Or<ParseFault>>
    // A tree is of the tokens, by the grammar.
    ensures found { IfOk result (λ tree. Reads source.now tokens.now tree) }
    // Each tree of the tokens is the answer, unless memory runs out: so there is one at most, and none is refused.
    ensures only { (tree : Ast) → Reads source.now tokens.now tree → IsTree result tree }
    // A fault is the first one.
    ensures first { IfErr result (IsTold source.now tokens.now) }
    // What has begun is the front of a program, and each front of a program has begun.
    ensures fronts { AreFronts (whole source.now) 200 }
{
    match program(alloc, source, MAX_NESTING, tokens) {
        Ok(tree) => Ok(tree),
        Err(ReadError::Memory) => Err(Or::NoMemory),
        Err(ReadError::Stop(kind, left)) => Err(Or::Fault(tell(source.len(), kind, left))),
    }
}
