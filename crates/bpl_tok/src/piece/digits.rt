//! Numbers, and the bits and widths of bit vectors, from their digits.

ghost use Rattle.std.specs.Prelude.{◌≡◌, ◌≤◌, ◌<◌, ◌+◌, IsTrue, length, slice_index};
ghost use Rattle.std.specs.Char.{is_ascii_digit};
ghost use Rattle.std.specs.List.{list_all, prefix_len};
ghost use Rattle.std.specs.Str.Parse.{digits_value};
ghost use Rattle.bpl_tok.specs.Pieces as spec;

use crate::piece::Piece;
use crate::piece::runs::digits_len;
use crate::token::{LexKind, TokKind};

/// The number that the digits write, where it is below 2 to the 128.
fn number_value(digits: &[u8]) -> Option<u128>
    requires { IsTrue (list_all is_ascii_digit digits.now) }
    ensures { result ≡ spec.in_128_bits (digits_value 10 digits.now) }
{
    let mut value = 0u128;
    for b in digits {
        let digit = u128::from(b.saturating_sub(b'0'));
        if value > (u128::MAX - digit) / 10 {
            return None;
        }
        value = 10 * value + digit;
    }
    Some(value)
}

/// The width that the digits write, where it is 1 to 64.
pub fn width_value(digits: &[u8]) -> Option<u32>
    requires { IsTrue (list_all is_ascii_digit digits.now) }
    ensures value { result ≡ spec.width_of digits.now }
    ensures within { spec.IsWidth result }
{
    let value = number_value(digits)?;
    if value >= 1 && value <= 64 {
        Some(value as u32)
    } else {
        None
    }
}

/// The bits that the digits write, where the width holds them.
fn bits_value(digits: &[u8], width: u32) -> Option<u64>
    requires digits { IsTrue (list_all is_ascii_digit digits.now) }
    requires width { width ≤ 64 }
    ensures { result ≡ spec.bits_in_width (digits_value 10 digits.now) width }
{
    let value = number_value(digits)?;
    if value < 1u128 << width {
        Some(value as u64)
    } else {
        None
    }
}

/// The number of `len` bytes that the digits write.
fn number(digits: &[u8], len: usize) -> Piece
    requires { IsTrue (list_all is_ascii_digit digits.now) }
    ensures { result ≡ spec.number_piece (spec.in_128_bits (digits_value 10 digits.now)) len }
{
    match number_value(digits) {
        Some(value) => Piece::Whole(TokKind::Number(value), len),
        None => Piece::Fault(LexKind::LiteralTooWide),
    }
}

/// The literal of `len` bytes with these digits of its bits, and this width.
fn literal(digits: &[u8], width: Option<u32>, len: usize) -> Piece
    requires digits { IsTrue (list_all is_ascii_digit digits.now) }
    requires width { spec.IsWidth width }
    ensures { result ≡ spec.literal_piece (digits_value 10 digits.now) width len }
{
    let Some(width) = width else {
        return Piece::Fault(LexKind::LiteralTooWide);
    };
    match bits_value(digits, width) {
        Some(bits) => Piece::Whole(TokKind::BvLit { width, bits }, len),
        None => Piece::Fault(LexKind::LiteralTooWide),
    }
}

fn is_digit_at(bytes: &[u8], i: usize) -> bool
    ensures { result ≡ is_ascii_digit (slice_index bytes.now i) }
{
    match bytes.get(i) {
        Some(b) => b.is_ascii_digit(),
        None => false,
    }
}

/// Whether what stands after digits makes a literal of them: `bv` and a digit.
fn makes_literal(after: &[u8]) -> bool
    ensures { result ≡ spec.makes_literal after.now }
{
    after.starts_with(b"bv") && is_digit_at(after, 2)
}

/// The number or the literal at the front of a text that begins with a digit.
#[tactic(auto, using(crate::proofs::Runs::run_passes))]
pub fn number_or_literal(bytes: &[u8]) -> Piece
    ensures { result ≡ spec.digits_piece bytes.now (prefix_len is_ascii_digit bytes.now) }
{
    let n = digits_len(bytes);
    let (digits, after) = bytes.split_at(n);
    if !makes_literal(after) {
        return number(digits, n);
    }
    let (_, rest) = after.split_at(2);
    let m = digits_len(rest);
    let (width, _) = rest.split_at(m);
    literal(digits, width_value(width), n + 2 + m)
}
