//! The parts of a text, numbers and identifiers.

ghost use Rattle.std.specs.Prelude.{◌≡◌, ◌≤◌, ◌∷◌, [], IfOk, IfSome, None, Some, map, nat_le, if◌then◌else◌};
ghost use Rattle.std.specs.List.{list_all};
ghost use Rattle.std.specs.Option.{option_map, option_map_or};
ghost use Rattle.bpl_tok.specs.Bytes as tokens;
ghost use Rattle.trace_text.specs.Words as spec;

use hy_text::read_u64;
use std::alloc::{AllocError, Global};

/// The parts between the bytes of this kind: one more than there are of those.
pub fn parts(alloc: Global, byte: u8, text: &[u8]) -> Result<Vec<&[u8]>, AllocError>
    ensures { IfOk result (λ v. map (λ x. x.now) v.items ≡ spec.parts byte text.now) }
{
    text.split(|b| *b == byte).collect(alloc)
}

/// What stands before the byte and what behind it, where it stands in the text once.
pub fn halves(byte: u8, text: &[u8]) -> Option<(&[u8], &[u8])>
    ensures { option_map (λ p. (p.0.now, p.1.now)) result ≡ spec.halves byte text.now }
{
    let (front, behind) = cut(byte, text);
    let back = behind?;
    match cut(byte, back) {
        (back, None) => Some((front, back)),
        (_, Some(_)) => None,
    }
}

// What stands before the first byte of this kind, and what behind it where there is one.
fn cut(byte: u8, text: &[u8]) -> (&[u8], Option<&[u8]>)
    ensures { spec.parts byte text.now ≡ result.0.now ∷ option_map_or (λ rest. spec.parts byte rest.now) result.1 [] }
{
    match text.iter().position(|b| *b == byte) {
        Some(i) => (&text[..i], Some(&text[i + 1..])),
        None => (text, None),
    }
}

// The number, where it is at most this.
fn at_most(most: u64, number: u64) -> Option<u64>
    ensures value { result ≡ (if nat_le number most then Some number else None) }
    ensures within { IfSome result (λ n. n ≤ most) }
{
    if number <= most { Some(number) } else { None }
}

/// The number that decimal digits write, where it is at most this; leading zeros are read.
pub fn number_up_to(most: u64, digits: &[u8]) -> Option<u64>
    ensures value { result ≡ spec.number_up_to most digits.now }
    ensures within { IfSome result (λ n. n ≤ most) }
{
    match read_u64(digits) {
        Ok(number) => at_most(most, number),
        Err(_) => None,
    }
}

fn is_letter(b: u8) -> bool
    ensures { result ≡ tokens.is_letter b }
{
    (b >= b'A' && b <= b'Z') || (b >= b'a' && b <= b'z')
}

fn is_mark(b: u8) -> bool
    ensures { result ≡ tokens.is_mark b }
{
    b == b'_'
        || b == b'.'
        || b == b'$'
        || b == b'#'
        || b == b'\''
        || b == b'~'
        || b == b'^'
        || b == b'?'
        || b == b'`'
}

fn begins_identifier(b: u8) -> bool
    ensures { result ≡ tokens.begins_ident b }
{
    is_letter(b) || is_mark(b)
}

fn is_in_identifier(b: u8) -> bool
    ensures { result ≡ tokens.in_ident b }
{
    begins_identifier(b) || b.is_ascii_digit()
}

fn all_in_identifier(text: &[u8]) -> bool
    ensures { result ≡ list_all tokens.in_ident text.now }
{
    text.iter().all(|b| is_in_identifier(*b))
}

// Whether the text is an identifier or a keyword of Boogie.
fn is_identifier(text: &[u8]) -> bool
    ensures { result ≡ spec.is_identifier text.now }
{
    match text.first() {
        None => false,
        Some(first) => begins_identifier(*first) && all_in_identifier(text),
    }
}

/// The text, where it is an identifier or a keyword of Boogie.
pub fn identifier(text: &[u8]) -> Option<&str>
    ensures { option_map (λ t. t.now) result ≡ (if spec.is_identifier text.now then Some text.now else None) }
{
    if !is_identifier(text) {
        return None;
    }
    match str::from_utf8(text) {
        Ok(name) => Some(name),
        Err(_) => None,
    }
}
