//! One token, and two, and the text of a token.

ghost use Rattle.std.specs.Prelude.{◌≡◌, ◌==◌, IfOk};
ghost use Rattle.bpl_rules.specs.Rules.{first, heads, one, two};
ghost use Rattle.bpl_parse.specs.Gives as spec;
ghost use Rattle.bpl_parse.specs.Gives.{Gives, IsHalt};
ghost use Rattle.bpl_parse.specs.Reader.{place_of, text_of};
ghost use Rattle.bpl_parse.specs.Tests.{is, is_no_brace, rank};

use crate::error::ReadError;
use crate::place::{Place, StopKind};
use bpl_tok::{Terminal, Token};
use sqlite_items::Items;
use std::alloc::{AllocError, Global};

/// Whether two terminal symbols are the same.
pub fn same_terminal(a: Terminal, b: Terminal) -> bool
    ensures { result ≡ (rank a == rank b) }
{
    a as u8 == b as u8
}

/// Whether the first token is this terminal symbol.
pub fn is_at(kind: Terminal, tokens: &[Token]) -> bool
    ensures { result ≡ heads (is kind) tokens.now }
{
    match tokens {
        [token, ..] => same_terminal(kind, token.kind.terminal()),
        [] => false,
    }
}

/// Whether the first token may stand inside an attribute.
pub fn is_at_lexeme(tokens: &[Token]) -> bool
    ensures { result ≡ heads is_no_brace tokens.now }
{
    match tokens {
        [token, ..] => {
            let kind = token.kind.terminal();
            !(same_terminal(Terminal::LeftBrace, kind) || same_terminal(Terminal::RightBrace, kind))
        }
        [] => false,
    }
}

/// The first token, which is this terminal symbol, else a fault.
pub fn take<'a>(
    kind: Terminal,
    place: Place,
    tokens: &'a [Token],
) -> Result<(Token, &'a [Token]), ReadError<'a>>
    ensures { Gives (λ x. (x.0, x.1.now)) result ((one place (is kind)).run tokens.now) }
{
    match tokens {
        [token, rest @ ..] => {
            if same_terminal(kind, token.kind.terminal()) {
                Ok((*token, rest))
            } else {
                Err(ReadError::Stop(StopKind::Refused(place), tokens))
            }
        }
        [] => Err(ReadError::Stop(StopKind::Refused(place), tokens)),
    }
}

/// The first two tokens; where the second is of another kind, the fault is at the first.
pub fn take_two<'a>(
    first: Terminal,
    second: Terminal,
    place: Place,
    tokens: &'a [Token],
) -> Result<(Token, Token, &'a [Token]), ReadError<'a>>
    ensures { Gives (λ x. ((x.0, x.1), x.2.now)) result ((two place (is first) (is second)).run tokens.now) }
{
    let (one, rest) = take(first, place, tokens)?;
    if !is_at(second, rest) {
        return Err(ReadError::Stop(StopKind::Ahead(place), tokens));
    }
    let (two, rest) = take(second, place, rest)?;
    Ok((one, two, rest))
}

/// The fault at the last level, where the terminal symbol opens another one.
pub fn at_bottom<'a>(kind: Terminal, place: Place, tokens: &'a [Token]) -> ReadError<'a>
    ensures { IsHalt result (spec.at_bottom kind place tokens.now) }
{
    if is_at(kind, tokens) {
        ReadError::Stop(StopKind::TooDeep, tokens)
    } else {
        ReadError::Stop(StopKind::Refused(place), tokens)
    }
}

/// Where the first token begins.
pub fn at_of(tokens: &[Token]) -> usize
    ensures { result ≡ place_of (first tokens.now) }
{
    match tokens {
        [token, ..] => token.at,
        [] => 0,
    }
}

/// The bytes of a token in the source; those that lie past its end are left out.
pub fn text(alloc: Global, source: &[u8], token: Token) -> Result<Items<u8>, AllocError>
    ensures { IfOk result (λ x. x ≡ text_of source.now token) }
{
    let (_, rest) = source.split_at(token.at.min(source.len()));
    let (text, _) = rest.split_at(token.len.min(rest.len()));
    Items::from_slice(alloc, text)
}
