//! What is told of a fault: a table of places and tokens.

ghost use Rattle.std.specs.Prelude.{◌≡◌, None};
ghost use Rattle.bpl_parse.specs.declared.place.Place.TheVariants as at;
ghost use Rattle.bpl_parse.specs.Gives.{fault};
ghost use Rattle.bpl_parse.specs.Tests as tests;
ghost use Rattle.bpl_parse.specs.Told as spec;

use crate::fault::{ParseFault, ParseKind};
use crate::place::{Place, StopKind};
use crate::tokens::same_terminal;
use bpl_ast::Word;
use bpl_tok::{Terminal, Token};

fn is(terminal: Terminal, token: Token) -> bool
    ensures { result ≡ tests.is terminal token }
{
    same_terminal(terminal, token.kind.terminal())
}

fn is_arithmetic(token: Token) -> bool
    ensures { result ≡ spec.is_arithmetic token }
{
    is(Terminal::Plus, token)
        || is(Terminal::Minus, token)
        || is(Terminal::Star, token)
        || is(Terminal::Slash, token)
        || is(Terminal::Percent, token)
        || is(Terminal::Div, token)
        || is(Terminal::Mod, token)
}

fn is_order(token: Token) -> bool
    ensures { result ≡ spec.is_order token }
{
    is(Terminal::Less, token)
        || is(Terminal::AtMost, token)
        || is(Terminal::Greater, token)
        || is(Terminal::AtLeast, token)
}

fn is_quantifier(token: Token) -> bool
    ensures { result ≡ spec.is_quantifier token }
{
    is(Terminal::Forall, token) || is(Terminal::Exists, token)
}

fn is_extension(token: Token) -> bool
    ensures { result ≡ spec.is_extension token }
{
    is(Terminal::Extends, token) || is(Terminal::Complete, token)
}

fn is_concurrent(token: Token) -> bool
    ensures { result ≡ spec.is_concurrent token }
{
    is(Terminal::Async, token) || is(Terminal::Par, token) || is(Terminal::Yield, token)
}

fn is_contract(token: Token) -> bool
    ensures { result ≡ spec.is_contract token }
{
    is(Terminal::Requires, token) || is(Terminal::Ensures, token)
}

fn is_no_synonym(token: Token) -> bool
    ensures { result ≡ spec.is_no_synonym token }
{
    is(Terminal::Semicolon, token) || is(Terminal::Ident, token)
}

fn word_if(test: bool, word: Word) -> Option<Word>
    ensures { result ≡ spec.or_else test word None }
{
    if test { Some(word) } else { None }
}

fn operand_word(token: Token) -> Option<Word>
    ensures { result ≡ spec.operand_word token }
{
    if is(Terminal::Number, token) {
        Some(Word::Integer)
    } else if is(Terminal::Minus, token) {
        Some(Word::Arithmetic)
    } else if is_quantifier(token) {
        Some(Word::Quantifier)
    } else if is(Terminal::Lambda, token) {
        Some(Word::Lambda)
    } else {
        word_if(is(Terminal::Old, token), Word::Old)
    }
}

fn after_operand_word(token: Token) -> Option<Word>
    ensures { result ≡ spec.after_operand_word token }
{
    if is_arithmetic(token) {
        Some(Word::Arithmetic)
    } else {
        word_if(is_order(token), Word::Order)
    }
}

fn after_index_word(token: Token) -> Option<Word>
    ensures { result ≡ spec.word_of at.AfterIndex token }
{
    if is(Terminal::Comma, token) {
        Some(Word::SeveralIndexes)
    } else {
        after_operand_word(token)
    }
}

fn sort_word(token: Token) -> Option<Word>
    ensures { result ≡ spec.sort_word token }
{
    if is(Terminal::Int, token) {
        Some(Word::Integer)
    } else if is(Terminal::Real, token) {
        Some(Word::Real)
    } else if is(Terminal::Less, token) {
        Some(Word::Polymorphism)
    } else {
        word_if(is(Terminal::WideWidth, token), Word::WideType)
    }
}

fn after_index_sort_word(token: Token) -> Option<Word>
    ensures { result ≡ spec.word_of at.AfterIndexSort token }
{
    if is(Terminal::Comma, token) {
        Some(Word::SeveralIndexes)
    } else {
        word_if(is(Terminal::Where, token), Word::Where)
    }
}

fn after_constant_sort_word(token: Token) -> Option<Word>
    ensures { result ≡ spec.word_of at.AfterConstantSort token }
{
    if is(Terminal::Where, token) {
        Some(Word::Where)
    } else {
        word_if(is_extension(token), Word::Extends)
    }
}

fn word_of(place: Place, token: Token) -> Option<Word>
    ensures { result ≡ spec.word_of place token }
{
    match place {
        Place::Operand => operand_word(token),
        Place::AfterOperand => after_operand_word(token),
        Place::AfterIndex => after_index_word(token),
        Place::Sort => sort_word(token),
        Place::AfterSort => word_if(is(Terminal::Where, token), Word::Where),
        Place::AfterIndexSort => after_index_sort_word(token),
        Place::AfterConstantSort => after_constant_sort_word(token),
        Place::AfterDeclaredName => word_if(is(Terminal::Less, token), Word::Polymorphism),
        Place::SynonymSign => word_if(is_no_synonym(token), Word::TypeConstructor),
        Place::Called => word_if(is_quantifier(token), Word::Quantifier),
        Place::Statement => word_if(is_concurrent(token), Word::Concurrency),
        Place::Spec => word_if(is_contract(token), Word::Contract),
        Place::Other => None,
    }
}

fn kind_of(word: Option<Word>) -> ParseKind
    ensures { result ≡ spec.kind_of word }
{
    match word {
        Some(what) => ParseKind::LeftOut { what },
        None => ParseKind::Unexpected,
    }
}

fn refused_token(place: Place, token: Token) -> ParseFault
    ensures { result ≡ spec.refused_token place token }
{
    ParseFault {
        at: token.at,
        kind: kind_of(word_of(place, token)),
    }
}

fn is_spec(place: Place) -> bool
    ensures { result ≡ spec.is_spec place }
{
    match place {
        Place::Spec => true,
        Place::Operand
        | Place::AfterOperand
        | Place::AfterIndex
        | Place::Sort
        | Place::AfterSort
        | Place::AfterIndexSort
        | Place::AfterConstantSort
        | Place::AfterDeclaredName
        | Place::SynonymSign
        | Place::Called
        | Place::Statement
        | Place::Other => false,
    }
}

fn is_free_contract(place: Place, token: Token, next: Token) -> bool
    ensures { result ≡ spec.is_free_contract place token next }
{
    is_spec(place) && is(Terminal::Free, token) && is_contract(next)
}

fn refused_at(end: usize, place: Place, left: &[Token]) -> ParseFault
    ensures { result ≡ spec.refused_at end place left.now }
{
    match left {
        [] => ParseFault {
            at: end,
            kind: ParseKind::EndTooSoon,
        },
        [token] => refused_token(place, *token),
        [token, next, ..] => {
            if is_free_contract(place, *token, *next) {
                refused_token(place, *next)
            } else {
                refused_token(place, *token)
            }
        }
    }
}

fn too_deep_at(end: usize, left: &[Token]) -> ParseFault
    ensures { result ≡ spec.too_deep_at end left.now }
{
    let at = match left {
        [] => end,
        [token, ..] => token.at,
    };
    ParseFault {
        at,
        kind: ParseKind::TooDeep,
    }
}

/// What is told of a fault, at the tokens that are left, in a source that ends there.
pub fn tell(end: usize, kind: StopKind, left: &[Token]) -> ParseFault
    ensures { result ≡ spec.told end (fault kind) left.now }
{
    match kind {
        StopKind::Refused(place) => refused_at(end, place, left),
        StopKind::Ahead(place) => refused_at(end, place, left),
        StopKind::TooDeep => too_deep_at(end, left),
    }
}
