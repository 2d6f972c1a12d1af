//! Cuts a whole source.

ghost use Rattle.std.specs.Prelude.{◌≡◌, length};
ghost use Rattle.bpl_tok.specs.Lexed.{Gives, lexed, tokens_of};

use crate::piece::{Piece, next_piece};
use crate::token::{LexFault, Token};
use hy_text::Or;
use std::alloc::Global;

/// The tokens of a source, in order, or its first fault.
///
/// A token is an identifier, a keyword, a bit-vector literal, a number, a string or a sign: always
/// the longest that can stand there. White space and comments lie between tokens. Each answer but
/// want of memory is determined by the source.
pub fn tokens(alloc: Global, source: &[u8]) -> Result<Vec<Token>, Or<LexFault>>
    ensures { Gives result (tokens_of source.now) }
{
    let mut found = Vec::new(alloc);
    let mut at = 0usize;
    let mut rest = source;
    for _ in 0..source.len() {
        if rest.is_empty() {
            return Ok(found);
        }
        match next_piece(rest) {
            Piece::Gap(n) => {
                let (_, after) = rest.split_at(n);
                rest = after;
                at += n;
            }
            Piece::Whole(kind, len) => {
                found.push(Token { kind, at, len })?;
                let (_, after) = rest.split_at(len);
                rest = after;
                at += len;
            }
            Piece::Fault(kind) => return Err(Or::Fault(LexFault { at, kind })),
        }
    }
    Ok(found)
}
