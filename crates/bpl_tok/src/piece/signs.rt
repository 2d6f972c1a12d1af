//! Signs: the longest with which the text begins.

ghost use Rattle.std.specs.Prelude.{◌≡◌, ◌≤◌, length, IfSome};
ghost use Rattle.bpl_tok.specs.Spellings.{lone_signs, shared_signs, sign_of, signs};

use crate::token::Terminal;

/// The longest sign with which the text begins, and how many bytes it takes.
pub fn sign(bytes: &[u8]) -> Option<(Terminal, usize)>
    ensures value { result ≡ sign_of signs bytes.now }
    ensures within { IfSome result (λ s. s.1 ≤ length bytes.now) }
{
    match lone_sign(bytes) {
        Some(found) => Some(found),
        None => shared_sign(bytes),
    }
}

/// A sign with whose first byte no other begins.
#[tactic(auto, unfolding(crate::specs::Spellings::sign_of))]
fn lone_sign(bytes: &[u8]) -> Option<(Terminal, usize)>
    ensures value { result ≡ sign_of lone_signs bytes.now }
    ensures within { IfSome result (λ s. s.1 ≤ length bytes.now) }
{
    if bytes.starts_with(b"(") {
        Some((Terminal::LeftParen, 1))
    } else if bytes.starts_with(b")") {
        Some((Terminal::RightParen, 1))
    } else if bytes.starts_with(b"[") {
        Some((Terminal::LeftBracket, 1))
    } else if bytes.starts_with(b"]") {
        Some((Terminal::RightBracket, 1))
    } else if bytes.starts_with(b"{") {
        Some((Terminal::LeftBrace, 1))
    } else if bytes.starts_with(b"}") {
        Some((Terminal::RightBrace, 1))
    } else if bytes.starts_with(b",") {
        Some((Terminal::Comma, 1))
    } else if bytes.starts_with(b";") {
        Some((Terminal::Semicolon, 1))
    } else if bytes.starts_with(b"-") {
        Some((Terminal::Minus, 1))
    } else if bytes.starts_with(b"*") {
        Some((Terminal::Star, 1))
    } else if bytes.starts_with(b"/") {
        Some((Terminal::Slash, 1))
    } else if bytes.starts_with(b"%") {
        Some((Terminal::Percent, 1))
    } else {
        None
    }
}

/// A sign with whose first byte others begin too.
#[tactic(auto, unfolding(crate::specs::Spellings::sign_of))]
fn shared_sign(bytes: &[u8]) -> Option<(Terminal, usize)>
    ensures value { result ≡ sign_of shared_signs bytes.now }
    ensures within { IfSome result (λ s. s.1 ≤ length bytes.now) }
{
    if bytes.starts_with(b":=") {
        Some((Terminal::Assign, 2))
    } else if bytes.starts_with(b":") {
        Some((Terminal::Colon, 1))
    } else if bytes.starts_with(b"==>") {
        Some((Terminal::Implies, 3))
    } else if bytes.starts_with(b"==") {
        Some((Terminal::Equal, 2))
    } else if bytes.starts_with(b"=") {
        Some((Terminal::EqualsSign, 1))
    } else if bytes.starts_with(b"!=") {
        Some((Terminal::NotEqual, 2))
    } else if bytes.starts_with(b"!") {
        Some((Terminal::Bang, 1))
    } else if bytes.starts_with(b"<==>") {
        Some((Terminal::Equivalent, 4))
    } else if bytes.starts_with(b"<==") {
        Some((Terminal::ImpliedBy, 3))
    } else if bytes.starts_with(b"<=") {
        Some((Terminal::AtMost, 2))
    } else if bytes.starts_with(b"<") {
        Some((Terminal::Less, 1))
    } else if bytes.starts_with(b">=") {
        Some((Terminal::AtLeast, 2))
    } else if bytes.starts_with(b">") {
        Some((Terminal::Greater, 1))
    } else if bytes.starts_with(b"&&") {
        Some((Terminal::AndAnd, 2))
    } else if bytes.starts_with(b"||") {
        Some((Terminal::OrOr, 2))
    } else if bytes.starts_with(b"++") {
        Some((Terminal::PlusPlus, 2))
    } else if bytes.starts_with(b"+") {
        Some((Terminal::Plus, 1))
    } else {
        None
    }
}
