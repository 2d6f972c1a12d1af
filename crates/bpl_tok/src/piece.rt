//! What stands at the front of a text: white space or a comment, a token, or a fault.

ghost use Rattle.std.specs.Prelude.{◌≡◌, ◌<◌, ◌≤◌, drop, false, length};
ghost use Rattle.bpl_tok.specs.Pieces as spec;
ghost use Rattle.bpl_tok.specs.Pieces.{piece_of};
ghost use Rattle.bpl_tok.specs.Spellings.{sign_of, signs};

mod comments;
mod digits;
mod runs;
mod signs;
mod strings;
mod words;

use crate::token::{LexKind, TokKind};
use comments::comment_len;
use digits::{number_or_literal, width_value};
use runs::{are_all_digits, begins_ident, ident_len, is_white, line_len, white_len};
use signs::sign;
use strings::string_len;
use words::keyword;

/// The front of a text.
#[derive(Clone, Copy, Debug, PartialEq, Eq)]
pub enum Piece {
    /// White space or a comment, of so many bytes.
    Gap(usize),
    /// A token, of so many bytes.
    Whole(TokKind, usize),
    /// No piece can begin here.
    Fault(LexKind),
}

fn is_width_word(word: &[u8]) -> bool
    ensures { result ≡ spec.is_width_word word.now }
{
    if !word.starts_with(b"bv") || word.len() <= 2 {
        return false;
    }
    let (_, digits) = word.split_at(2);
    are_all_digits(digits)
}

/// What kind of token a whole word is.
fn word_kind(word: &[u8]) -> TokKind
    ensures { result ≡ spec.word_kind word.now }
{
    if is_width_word(word) {
        let (_, digits) = word.split_at(2);
        return TokKind::Width(width_value(digits));
    }
    match keyword(word) {
        Some(terminal) => TokKind::Keyword(terminal),
        None => TokKind::Ident,
    }
}

/// The keyword or the identifier at the front of a text that begins with a byte of one.
fn word(bytes: &[u8]) -> Piece
    ensures { result ≡ spec.word_piece bytes.now }
{
    let n = ident_len(bytes);
    let (front, _) = bytes.split_at(n);
    Piece::Whole(word_kind(front), n)
}

/// The comment at the front of a text that begins with `/*`.
fn comment(bytes: &[u8]) -> Piece
    requires { 2 ≤ length bytes.now }
    ensures { result ≡ spec.comment_piece (spec.comment_len 0 (drop 2 bytes.now)) }
{
    let (_, inner) = bytes.split_at(2);
    match comment_len(inner) {
        Some(n) => Piece::Gap(n + 2),
        None => Piece::Fault(LexKind::OpenComment),
    }
}

/// The string at the front of a text that begins with a quote.
fn string(bytes: &[u8]) -> Piece
    requires { 1 ≤ length bytes.now }
    ensures { result ≡ spec.string_piece (spec.string_len false (drop 1 bytes.now)) }
{
    let (_, inner) = bytes.split_at(1);
    match string_len(inner) {
        Some(n) => Piece::Whole(TokKind::Str, n + 1),
        None => Piece::Fault(LexKind::OpenString),
    }
}

fn sign_or_fault(bytes: &[u8]) -> Piece
    ensures { result ≡ spec.sign_piece (sign_of signs bytes.now) }
{
    match sign(bytes) {
        Some((terminal, len)) => Piece::Whole(TokKind::Sign(terminal), len),
        None => Piece::Fault(LexKind::BadByte),
    }
}

/// The piece at the front of a text.
#[tactic(auto, unfolding(crate::specs::Pieces::piece_of))]
pub fn next_piece(bytes: &[u8]) -> Piece
    requires { 0 < length bytes.now }
    ensures value { result ≡ piece_of bytes.now }
    ensures within { spec.IsWithin (length bytes.now) result }
{
    let b = bytes[0];
    if is_white(b) {
        return Piece::Gap(white_len(bytes));
    }
    if bytes.starts_with(b"//") {
        return Piece::Gap(line_len(bytes));
    }
    if bytes.starts_with(b"/*") {
        return comment(bytes);
    }
    if begins_ident(b) {
        return word(bytes);
    }
    if b.is_ascii_digit() {
        return number_or_literal(bytes);
    }
    if b == b'"' {
        return string(bytes);
    }
    sign_or_fault(bytes)
}
