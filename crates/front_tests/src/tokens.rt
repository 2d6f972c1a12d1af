//! What the tokens of small texts are: each keyword and each sign, and the decisions on literals,
//! comments, strings and longest runs.

use bpl_tok::{LexFault, LexKind, Terminal, TokKind, Token, tokens};
use hy_text::Or;
use std::test::Fail;

const SPELLINGS: &[u8] =
    b"type const unique function axiom var procedure implementation returns modifies \
    requires ensures free where assert assume havoc call goto return if then else while \
    break invariant bool int real true false old forall exists \
    lambda extends complete async par yield div mod \
    ( ) [ ] { } , ; : := = == != <==> ==> <== <= >= < > && || ! ++ + - * / %";

const SPELT: [Terminal; 71] = [
    Terminal::TypeWord,
    Terminal::Const,
    Terminal::Unique,
    Terminal::Function,
    Terminal::Axiom,
    Terminal::Var,
    Terminal::Procedure,
    Terminal::Implementation,
    Terminal::Returns,
    Terminal::Modifies,
    Terminal::Requires,
    Terminal::Ensures,
    Terminal::Free,
    Terminal::Where,
    Terminal::Assert,
    Terminal::Assume,
    Terminal::Havoc,
    Terminal::Call,
    Terminal::Goto,
    Terminal::Return,
    Terminal::If,
    Terminal::Then,
    Terminal::Else,
    Terminal::While,
    Terminal::Break,
    Terminal::Invariant,
    Terminal::BoolWord,
    Terminal::Int,
    Terminal::Real,
    Terminal::True,
    Terminal::False,
    Terminal::Old,
    Terminal::Forall,
    Terminal::Exists,
    Terminal::Lambda,
    Terminal::Extends,
    Terminal::Complete,
    Terminal::Async,
    Terminal::Par,
    Terminal::Yield,
    Terminal::Div,
    Terminal::Mod,
    Terminal::LeftParen,
    Terminal::RightParen,
    Terminal::LeftBracket,
    Terminal::RightBracket,
    Terminal::LeftBrace,
    Terminal::RightBrace,
    Terminal::Comma,
    Terminal::Semicolon,
    Terminal::Colon,
    Terminal::Assign,
    Terminal::EqualsSign,
    Terminal::Equal,
    Terminal::NotEqual,
    Terminal::Equivalent,
    Terminal::Implies,
    Terminal::ImpliedBy,
    Terminal::AtMost,
    Terminal::AtLeast,
    Terminal::Less,
    Terminal::Greater,
    Terminal::AndAnd,
    Terminal::OrOr,
    Terminal::Bang,
    Terminal::PlusPlus,
    Terminal::Plus,
    Terminal::Minus,
    Terminal::Star,
    Terminal::Slash,
    Terminal::Percent,
];

#[test]
fn each_keyword_and_sign(rt: HostRuntime) -> Result<(), Fail> {
    let found = tokens(rt.alloc(), SPELLINGS)?;
    assert_eq!(rt; found.len(), 71);
    for (token, terminal) in found.iter().zip(SPELT) {
        assert_eq!(rt; token.kind.terminal(), terminal);
    }
    Ok(())
}

const FAULTS: [(&[u8], usize, LexKind); 18] = [
    (b"/* /* */", 0, LexKind::OpenComment),
    (b"axiom @;", 6, LexKind::BadByte),
    (b"axiom {:x \"abc", 10, LexKind::OpenString),
    (b"axiom 7bv65 == 7bv65;", 6, LexKind::LiteralTooWide),
    (b"/*/", 0, LexKind::OpenComment),
    (b" /* /* */ @", 1, LexKind::OpenComment),
    (b"\"a\\\\\"", 0, LexKind::OpenString),
    (b"x \"a\nb\"", 2, LexKind::OpenString),
    (b"x\\y", 1, LexKind::BadByte),
    (b"a & b", 2, LexKind::BadByte),
    (b"a\xC3\xA9", 1, LexKind::BadByte),
    (b"1bv0", 0, LexKind::LiteralTooWide),
    (b"256bv8", 0, LexKind::LiteralTooWide),
    (b"18446744073709551616bv64", 0, LexKind::LiteralTooWide),
    (b"1bv18446744073709551617", 0, LexKind::LiteralTooWide),
    (
        b"340282366920938463463374607431768211456",
        0,
        LexKind::LiteralTooWide,
    ),
    (
        b"340282366920938463463374607431768211457bv1",
        0,
        LexKind::LiteralTooWide,
    ),
    (b"1 @ 1bv0 \"", 2, LexKind::BadByte),
];

#[test]
fn each_fault(rt: HostRuntime) -> Result<(), Fail> {
    for (source, at, kind) in FAULTS {
        match tokens(rt.alloc(), source) {
            Err(Or::Fault(fault)) => assert_eq!(rt; fault, LexFault { at, kind }),
            Err(Or::NoMemory) => assert!(rt; false, "no memory"),
            Ok(_) => assert!(rt; false, "no fault"),
        }
    }
    Ok(())
}

// Each line is a decision: comments, strings, literals, widths, identifiers and signs.
const DECISIONS: &[u8] = b"/*/ */\n\
    /* \" // /* \xFF */ */x\n\
    // /* \" \xFF\n\
    \"/* // \xFF\"\n\
    \"a\\\\\" b\"\n\
    \"a\\b\"\"\"\n\
    7bv\n\
    7bv8x\n\
    0x1F\n\
    007bv008\n\
    18446744073709551615bv64\n\
    340282366920938463463374607431768211455\n\
    bv bv8x types\n\
    bv008 bv064 bv1\n\
    bv0 bv065\n\
    bv18446744073709551617\n\
    _.$#'~^?`z9 .1\n\
    <===!\x0B\x0C\r\t// end";

const DECIDED: [(TokKind, usize, usize); 28] = [
    (TokKind::Ident, 25, 1),
    (TokKind::Str, 37, 9),
    (TokKind::Str, 47, 8),
    (TokKind::Str, 56, 5),
    (TokKind::Str, 61, 2),
    (TokKind::Number(7), 64, 1),
    (TokKind::Ident, 65, 2),
    (TokKind::BvLit { width: 8, bits: 7 }, 68, 4),
    (TokKind::Ident, 72, 1),
    (TokKind::Number(0), 74, 1),
    (TokKind::Ident, 75, 3),
    (TokKind::BvLit { width: 8, bits: 7 }, 79, 8),
    (
        TokKind::BvLit {
            width: 64,
            bits: u64::MAX,
        },
        88,
        24,
    ),
    (TokKind::Number(u128::MAX), 113, 39),
    (TokKind::Ident, 153, 2),
    (TokKind::Ident, 156, 4),
    (TokKind::Ident, 161, 5),
    (TokKind::Width(Some(8)), 167, 5),
    (TokKind::Width(Some(64)), 173, 5),
    (TokKind::Width(Some(1)), 179, 3),
    (TokKind::Width(None), 183, 3),
    (TokKind::Width(None), 187, 5),
    (TokKind::Width(None), 193, 22),
    (TokKind::Ident, 216, 11),
    (TokKind::Ident, 228, 2),
    (TokKind::Sign(Terminal::ImpliedBy), 231, 3),
    (TokKind::Sign(Terminal::EqualsSign), 234, 1),
    (TokKind::Sign(Terminal::Bang), 235, 1),
];

#[test]
fn each_decision(rt: HostRuntime) -> Result<(), Fail> {
    let found = tokens(rt.alloc(), DECISIONS)?;
    assert_eq!(rt; found.len(), 28);
    for (token, (kind, at, len)) in found.iter().zip(DECIDED) {
        assert_eq!(rt; *token, Token { kind, at, len });
    }
    Ok(())
}
