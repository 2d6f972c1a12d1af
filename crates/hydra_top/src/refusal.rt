//! The texts of refusals.

ghost use Rattle.std.specs.Prelude.{◌≡◌, ◌++◌, IfOk, codes, decimal};
ghost use Rattle.hydra_top.specs.Texts.{fault_line, flow_words, left_out, lex_words, parse_words, refusal_text, status_words, trace_words, type_words, word_words};
ghost use Rattle.trace_text.specs.Traces.{line};

use crate::outcome::Refusal;
use bpl_ast::Word;
use bpl_flow::FlowKind;
use bpl_parse::ParseKind;
use bpl_tok::LexKind;
use bpl_type::TypeKind;
use hy_text::{Bytes, Text, put_u64};
use hydra_words::WordKind;
use src_run::Status;
use std::alloc::{AllocError, Global};
use trace_text::TraceKind;

/// The line that refuses the input.
pub fn refusal_line(alloc: Global, refusal: &Refusal) -> Result<Bytes, AllocError>
    ensures { IfOk result (λ t. t ≡ refusal_text refusal.now) }
{
    match refusal {
        Refusal::Words(fault) => fault_text(alloc, b"word", fault.index, word_text(fault.kind)),
        Refusal::NotBuilt { part: _ } => Bytes::from_slice(alloc, b"refused: not built\n"),
        Refusal::TooLong { second: _ } => Bytes::from_slice(alloc, b"refused: too long\n"),
        Refusal::Lex(fault) => fault_text(alloc, b"lex", fault.at, lex_text(fault.kind)),
        Refusal::Parse(fault) => parse_line(alloc, fault.at, fault.kind),
        Refusal::Typing(fault) => type_line(alloc, fault.at, fault.kind),
        Refusal::Flow(fault) => fault_text(alloc, b"flow", fault.at, flow_text(fault.kind)),
        Refusal::NoEntry { name } => no_entry(alloc, name),
        Refusal::TraceText(fault) => fault_text(
            alloc,
            b"trace line",
            fault.line,
            trace_kind_text(fault.kind),
        ),
        Refusal::NotFailed { status, index } => not_failed(alloc, *status, *index),
        Refusal::Differs { line } => fault_text(alloc, b"trace line", *line, b"differs"),
    }
}

// The line of a fault of the grammar.
fn parse_line(alloc: Global, at: usize, kind: ParseKind) -> Result<Bytes, AllocError>
    ensures { IfOk result (λ t. t ≡ fault_line (codes "parse") at (parse_words kind)) }
{
    let words = parse_text(alloc, kind)?;
    fault_text(alloc, b"parse", at, words.as_slice())
}

// The line of a fault of typing.
fn type_line(alloc: Global, at: usize, kind: TypeKind) -> Result<Bytes, AllocError>
    ensures { IfOk result (λ t. t ≡ fault_line (codes "type") at (type_words kind)) }
{
    let words = type_text(alloc, kind)?;
    fault_text(alloc, b"type", at, words.as_slice())
}

// The line of a fault that a part of the reader found, at an offset, a word or a line, in the words of its kind.
fn fault_text(alloc: Global, part: &[u8], at: usize, kind: &[u8]) -> Result<Bytes, AllocError>
    ensures { IfOk result (λ t. t ≡ fault_line part.now at kind.now) }
{
    let mut text = Bytes::from_slice(alloc, b"refused: ")?;
    text.append(part)?;
    text.append(b" ")?;
    put_u64(&mut text, at as u64)?;
    text.append(b" ")?;
    text.append(kind)?;
    text.push(b'\n')?;
    Ok(text)
}

fn word_text(kind: WordKind) -> &'static [u8]
    ensures { result.now ≡ word_words kind }
{
    match kind {
        WordKind::Missing => b"missing",
        WordKind::Unexpected => b"unexpected",
        WordKind::NotNumber => b"not number",
        WordKind::OutOfRange => b"out of range",
        WordKind::Repeated => b"repeated",
    }
}

fn lex_text(kind: LexKind) -> &'static [u8]
    ensures { result.now ≡ lex_words kind }
{
    match kind {
        LexKind::BadByte => b"bad byte",
        LexKind::OpenComment => b"open comment",
        LexKind::OpenString => b"open string",
        LexKind::LiteralTooWide => b"literal too wide",
    }
}

fn parse_text(alloc: Global, kind: ParseKind) -> Result<Bytes, AllocError>
    ensures { IfOk result (λ t. t ≡ parse_words kind) }
{
    match kind {
        ParseKind::Unexpected => Bytes::from_slice(alloc, b"unexpected"),
        ParseKind::EndTooSoon => Bytes::from_slice(alloc, b"end too soon"),
        ParseKind::TooDeep => Bytes::from_slice(alloc, b"too deep"),
        ParseKind::LeftOut { what } => left_out_words(alloc, what),
    }
}

fn type_text(alloc: Global, kind: TypeKind) -> Result<Bytes, AllocError>
    ensures { IfOk result (λ t. t ≡ type_words kind) }
{
    match kind {
        TypeKind::Unknown => Bytes::from_slice(alloc, b"unknown"),
        TypeKind::Twice => Bytes::from_slice(alloc, b"twice"),
        TypeKind::Mismatch => Bytes::from_slice(alloc, b"mismatch"),
        TypeKind::Arity => Bytes::from_slice(alloc, b"arity"),
        TypeKind::Width => Bytes::from_slice(alloc, b"width"),
        TypeKind::Cyclic => Bytes::from_slice(alloc, b"cyclic"),
        TypeKind::NotAssignable => Bytes::from_slice(alloc, b"not assignable"),
        TypeKind::Large => Bytes::from_slice(alloc, b"large"),
        TypeKind::LeftOut { what } => left_out_words(alloc, what),
    }
}

fn flow_text(kind: FlowKind) -> &'static [u8]
    ensures { result.now ≡ flow_words kind }
{
    match kind {
        FlowKind::NoLabel => b"no label",
        FlowKind::LabelTwice => b"label twice",
        FlowKind::NotForward => b"not forward",
        FlowKind::BreakOutside => b"break outside",
    }
}

// The words for a form that is left out.
fn left_out_words(alloc: Global, what: Word) -> Result<Bytes, AllocError>
    ensures { IfOk result (λ t. t ≡ codes "left out " ++ left_out what) }
{
    let mut text = Bytes::from_slice(alloc, b"left out ")?;
    text.append(left_out_text(what))?;
    Ok(text)
}

fn left_out_text(what: Word) -> &'static [u8]
    ensures { result.now ≡ left_out what }
{
    match what {
        Word::Integer => b"integer",
        Word::Real => b"real",
        Word::Arithmetic => b"arithmetic",
        Word::Order => b"order",
        Word::Polymorphism => b"polymorphism",
        Word::TypeConstructor => b"type constructor",
        Word::SeveralIndexes => b"several indexes",
        Word::Quantifier => b"quantifier",
        Word::Lambda => b"lambda",
        Word::Where => b"where",
        Word::Extends => b"extends",
        Word::Concurrency => b"concurrency",
        Word::Contract => b"contract",
        Word::Old => b"old",
        Word::WideType => b"wide type",
        Word::MapOfMap => b"map of map",
        Word::UniqueMap => b"unique map",
        Word::MapEquality => b"map equality",
        Word::Uninterpreted => b"uninterpreted",
        Word::NoBody => b"no body",
    }
}

// The line that refuses an entry that is not there.
fn no_entry(alloc: Global, name: &Text) -> Result<Bytes, AllocError>
    ensures { IfOk result (λ t. t ≡ line (codes "refused: no entry " ++ name.now)) }
{
    let mut text = Bytes::from_slice(alloc, b"refused: no entry ")?;
    text.append(name.as_bytes())?;
    text.push(b'\n')?;
    Ok(text)
}

fn trace_kind_text(kind: TraceKind) -> &'static [u8]
    ensures { result.now ≡ trace_words kind }
{
    match kind {
        TraceKind::NoHead => b"no head",
        TraceKind::BadLine => b"bad line",
        TraceKind::NoEnd => b"no end",
        TraceKind::AfterEnd => b"after end",
    }
}

fn status_text(status: Status) -> &'static [u8]
    ensures { result.now ≡ status_words status }
{
    match status {
        Status::Going => b"going",
        Status::Ended => b"ended",
        Status::Failed { proc: _, assert: _ } => b"",
        Status::Blocked => b"blocked",
        Status::Cut => b"cut",
        Status::BadChoice { index: _ } => b"choice",
    }
}

// The line that refuses a trace whose run doesn't fail.
fn not_failed(alloc: Global, status: Status, index: usize) -> Result<Bytes, AllocError>
    ensures { IfOk result (λ t. t ≡ line (codes "refused: trace " ++ status_words status ++ codes " " ++ decimal index)) }
{
    let mut text = Bytes::from_slice(alloc, b"refused: trace ")?;
    text.append(status_text(status))?;
    text.append(b" ")?;
    put_u64(&mut text, index as u64)?;
    text.push(b'\n')?;
    Ok(text)
}
