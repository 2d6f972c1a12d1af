//! Whole programs.

ghost use Rattle.bpl_parse.specs.Decls as spec;
ghost use Rattle.bpl_parse.specs.Decls.{levels};
ghost use Rattle.bpl_parse.specs.Gives.{Gives};
ghost use Rattle.bpl_parse.specs.Tests as tests;
ghost use Rattle.bpl_parse.specs.declared.place.Place.TheVariants as at;
ghost use Rattle.bpl_rules.specs.Rules.{end, heads as is_first, run_many};
ghost use Rattle.std.specs.Prelude.{◌≡◌, [], length};

use super::functions::{axiom, function};
use super::groups::globals;
use super::procedures::{implementation, procedure};
use super::types::{constants, synonym};
use crate::error::ReadError;
use crate::place::{Place, StopKind};
use crate::tokens::is_at;
use bpl_ast::{Ast, Decl};
use bpl_tok::{Terminal, Token};
use sqlite_items::Items;
use std::alloc::Global;

#[tactic(auto, unfolding(crate::specs::Decls::decl, crate::specs::Decls::synonym, crate::specs::Decls::constants, crate::specs::Decls::function, crate::specs::Decls::axiom_decl, crate::specs::Decls::variables, crate::specs::Decls::procedure, crate::specs::Decls::implementation))]
fn decl<'a>(
    alloc: Global,
    source: &[u8],
    depth: usize,
    tokens: &'a [Token],
) -> Result<(Decl, &'a [Token]), ReadError<'a>>
    ensures { Gives (λ x. (x.0, x.1.now)) result ((spec.decl source.now (levels source.now depth)).run tokens.now) }
{
    if is_at(Terminal::TypeWord, tokens) {
        synonym(alloc, source, depth, tokens)
    } else if is_at(Terminal::Const, tokens) {
        constants(alloc, source, depth, tokens)
    } else if is_at(Terminal::Function, tokens) {
        function(alloc, source, depth, tokens)
    } else if is_at(Terminal::Axiom, tokens) {
        axiom(alloc, source, depth, tokens)
    } else if is_at(Terminal::Var, tokens) {
        globals(alloc, source, depth, tokens)
    } else if is_at(Terminal::Procedure, tokens) {
        procedure(alloc, source, depth, tokens)
    } else {
        implementation(alloc, source, depth, tokens)
    }
}

fn is_at_decl(tokens: &[Token]) -> bool
    ensures { result ≡ is_first tests.begins_decl tokens.now }
{
    is_at(Terminal::TypeWord, tokens)
        || is_at(Terminal::Const, tokens)
        || is_at(Terminal::Function, tokens)
        || is_at(Terminal::Axiom, tokens)
        || is_at(Terminal::Var, tokens)
        || is_at(Terminal::Procedure, tokens)
        || is_at(Terminal::Implementation, tokens)
}

fn decls_of<'a>(
    alloc: Global,
    source: &[u8],
    depth: usize,
    tokens: &'a [Token],
) -> Result<(Items<Decl>, &'a [Token]), ReadError<'a>>
    ensures { Gives (λ x. (x.0, x.1.now)) result (run_many (spec.decl source.now (levels source.now depth)) (length tokens.now) tokens.now) }
{
    let mut found = Items::new(alloc);
    let mut rest = tokens;
    for _ in 0..tokens.len() {
        if !is_at_decl(rest) {
            return Ok((found, rest));
        }
        let (next, after) = decl(alloc, source, depth, rest)?;
        found.push(next)?;
        rest = after;
    }
    Ok((found, rest))
}

/// The end of the tokens.
fn end_of<'a>(tokens: &'a [Token]) -> Result<(), ReadError<'a>>
    ensures { Gives (λ x. (tt, [])) result ((end at.Other).run tokens.now) }
{
    if tokens.is_empty() {
        Ok(())
    } else {
        Err(ReadError::Stop(StopKind::Refused(Place::Other), tokens))
    }
}

/// A whole program, with no token left.
#[tactic(auto, unfolding(crate::specs::Decls::program, crate::specs::Decls::decl))]
pub fn program<'a>(
    alloc: Global,
    source: &[u8],
    depth: usize,
    tokens: &'a [Token],
) -> Result<Ast, ReadError<'a>>
    ensures { Gives (λ x. (x, [])) result ((spec.program source.now (levels source.now depth)).run tokens.now) }
{
    let (decls, rest) = decls_of(alloc, source, depth, tokens)?;
    end_of(rest)?;
    Ok(Ast { decls })
}
