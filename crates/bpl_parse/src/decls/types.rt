//! Types and constants.

ghost use Rattle.bpl_parse.specs.Decls as spec;
ghost use Rattle.bpl_parse.specs.Decls.{levels};
ghost use Rattle.bpl_parse.specs.Gives.{Gives};
ghost use Rattle.std.specs.Prelude.{◌≡◌};

use crate::error::ReadError;
use crate::identifiers::{attributes, name, names};
use crate::place::Place;
use crate::sorts::sort;
use crate::tokens::{is_at, take};
use bpl_ast::{Constants, Decl, Synonym};
use bpl_tok::{Terminal, Token};
use std::alloc::Global;

/// The declaration of a type.
#[tactic(auto, unfolding(crate::specs::Decls::synonym))]
pub fn synonym<'a>(
    alloc: Global,
    source: &[u8],
    depth: usize,
    tokens: &'a [Token],
) -> Result<(Decl, &'a [Token]), ReadError<'a>>
    ensures { Gives (λ x. (x.0, x.1.now)) result ((spec.synonym source.now (levels source.now depth)).run tokens.now) }
{
    let (word, rest) = take(Terminal::TypeWord, Place::Other, tokens)?;
    let (attributes, rest) = attributes(alloc, source, rest)?;
    let (name, rest) = name(alloc, source, Place::Other, rest)?;
    let (_, rest) = take(Terminal::EqualsSign, Place::SynonymSign, rest)?;
    let (sort, rest) = sort(alloc, source, depth, rest)?;
    let (_, rest) = take(Terminal::Semicolon, Place::AfterSort, rest)?;
    let at = word.at;
    let synonym = Synonym {
        at,
        attributes,
        name,
        sort,
    };
    Ok((Decl::Synonym(synonym), rest))
}

fn uniqueness<'a>(tokens: &'a [Token]) -> Result<(bool, &'a [Token]), ReadError<'a>>
    ensures { Gives (λ x. (x.0, x.1.now)) result (spec.uniqueness.run tokens.now) }
{
    if is_at(Terminal::Unique, tokens) {
        let (_, rest) = take(Terminal::Unique, Place::Other, tokens)?;
        Ok((true, rest))
    } else {
        Ok((false, tokens))
    }
}

/// The declaration of constants.
#[tactic(auto, unfolding(crate::specs::Decls::constants))]
pub fn constants<'a>(
    alloc: Global,
    source: &[u8],
    depth: usize,
    tokens: &'a [Token],
) -> Result<(Decl, &'a [Token]), ReadError<'a>>
    ensures { Gives (λ x. (x.0, x.1.now)) result ((spec.constants source.now (levels source.now depth)).run tokens.now) }
{
    let (word, rest) = take(Terminal::Const, Place::Other, tokens)?;
    let (attributes, rest) = attributes(alloc, source, rest)?;
    let (unique, rest) = uniqueness(rest)?;
    let (names, rest) = names(alloc, source, rest)?;
    let (_, rest) = take(Terminal::Colon, Place::Other, rest)?;
    let (sort, rest) = sort(alloc, source, depth, rest)?;
    let (_, rest) = take(Terminal::Semicolon, Place::AfterConstantSort, rest)?;
    let at = word.at;
    let constants = Constants {
        at,
        attributes,
        unique,
        names,
        sort,
    };
    Ok((Decl::Constants(constants), rest))
}
