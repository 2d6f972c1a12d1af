//! What functions mean: their bodies, or the operators that attributes name.

ghost use Rattle.std.specs.Prelude.{◌≡◌, ◌++◌, map, codes, Some, IfOk, OnOk};
ghost use Rattle.std.specs.Option.{option_copied, option_and_then};
ghost use Rattle.type_pass.specs.Amounts.{amount, amount_behind};
ghost use Rattle.type_pass.specs.Meanings as spec;
ghost use Rattle.type_pass.specs.Meanings.{listed, unary_names, word_names, test_names};

use crate::tables::{Builtin, Meaning};
use crate::twice::is_builtin_attribute;
use bpl_ast::{Attribute, Function, Lexeme};
use hy_text::{NumFault, read_u64};
use hy_val::{BvOp, UnOp};
use std::alloc::{AllocError, Global};

fn unary_named(text: &[u8]) -> Option<Builtin>
    ensures { result ≡ listed unary_names text.now }
{
    if text == b"bvnot".as_slice() {
        return Some(Builtin::Unary(UnOp::BvNot));
    }
    if text == b"bvneg".as_slice() {
        return Some(Builtin::Unary(UnOp::BvNeg));
    }
    None
}

fn word_named(text: &[u8]) -> Option<Builtin>
    ensures { result ≡ listed word_names text.now }
{
    if text == b"bvand".as_slice() {
        return Some(Builtin::Binary(BvOp::BvAnd));
    }
    if text == b"bvor".as_slice() {
        return Some(Builtin::Binary(BvOp::BvOr));
    }
    if text == b"bvxor".as_slice() {
        return Some(Builtin::Binary(BvOp::BvXor));
    }
    if text == b"bvadd".as_slice() {
        return Some(Builtin::Binary(BvOp::BvAdd));
    }
    if text == b"bvsub".as_slice() {
        return Some(Builtin::Binary(BvOp::BvSub));
    }
    if text == b"bvmul".as_slice() {
        return Some(Builtin::Binary(BvOp::BvMul));
    }
    if text == b"bvudiv".as_slice() {
        return Some(Builtin::Binary(BvOp::BvUdiv));
    }
    if text == b"bvurem".as_slice() {
        return Some(Builtin::Binary(BvOp::BvUrem));
    }
    if text == b"bvsdiv".as_slice() {
        return Some(Builtin::Binary(BvOp::BvSdiv));
    }
    if text == b"bvsrem".as_slice() {
        return Some(Builtin::Binary(BvOp::BvSrem));
    }
    if text == b"bvsmod".as_slice() {
        return Some(Builtin::Binary(BvOp::BvSmod));
    }
    if text == b"bvshl".as_slice() {
        return Some(Builtin::Binary(BvOp::BvShl));
    }
    if text == b"bvlshr".as_slice() {
        return Some(Builtin::Binary(BvOp::BvLshr));
    }
    if text == b"bvashr".as_slice() {
        return Some(Builtin::Binary(BvOp::BvAshr));
    }
    None
}

fn test_named(text: &[u8]) -> Option<Builtin>
    ensures { result ≡ listed test_names text.now }
{
    if text == b"bvult".as_slice() {
        return Some(Builtin::Binary(BvOp::BvUlt));
    }
    if text == b"bvule".as_slice() {
        return Some(Builtin::Binary(BvOp::BvUle));
    }
    if text == b"bvugt".as_slice() {
        return Some(Builtin::Binary(BvOp::BvUgt));
    }
    if text == b"bvuge".as_slice() {
        return Some(Builtin::Binary(BvOp::BvUge));
    }
    if text == b"bvslt".as_slice() {
        return Some(Builtin::Binary(BvOp::BvSlt));
    }
    if text == b"bvsle".as_slice() {
        return Some(Builtin::Binary(BvOp::BvSle));
    }
    if text == b"bvsgt".as_slice() {
        return Some(Builtin::Binary(BvOp::BvSgt));
    }
    if text == b"bvsge".as_slice() {
        return Some(Builtin::Binary(BvOp::BvSge));
    }
    None
}

#[tactic(auto, using(crate::proofs::TableLaws::meaning_laws))]
fn operator_named(text: &[u8]) -> Option<Builtin>
    ensures { result ≡ listed (unary_names ++ word_names ++ test_names) text.now }
{
    match unary_named(text) {
        Some(builtin) => Some(builtin),
        None => match word_named(text) {
            Some(builtin) => Some(builtin),
            None => test_named(text),
        },
    }
}

// What stands behind a front.
fn behind<'a>(front: &[u8], text: &'a [u8]) -> Option<&'a [u8]>
    ensures { option_copied result ≡ spec.behind front.now text.now }
{
    if text.starts_with(front) {
        Some(&text[front.len()..])
    } else {
        None
    }
}

// What stands before a back.
fn before<'a>(back: &[u8], text: &'a [u8]) -> Option<&'a [u8]>
    ensures { option_copied result ≡ spec.before back.now text.now }
{
    if text.ends_with(back) {
        Some(&text[..text.len() - back.len()])
    } else {
        None
    }
}

// The number that digits write, where more than 64 counts as 64.
fn amount(digits: &[u8]) -> Option<u32>
    ensures { result ≡ amount digits.now }
{
    match read_u64(digits) {
        Err(NumFault::NotDigits) => None,
        Err(NumFault::TooLarge) => Some(64),
        Ok(number) => Some(number.min(64) as u32),
    }
}

fn amount_within(bracketed: &[u8], text: &[u8]) -> Option<u32>
    ensures { result ≡ option_and_then amount (option_and_then (spec.before (codes ")")) (spec.behind bracketed.now text.now)) }
{
    let rest = behind(bracketed, text)?;
    let digits = before(b")".as_slice(), rest)?;
    amount(digits)
}

// The number behind one front, or behind another one and before a parenthesis.
fn amount_behind(front: &[u8], bracketed: &[u8], text: &[u8]) -> Option<u32>
    ensures { result ≡ amount_behind front.now bracketed.now text.now }
{
    match behind(front, text) {
        None => amount_within(bracketed, text),
        Some(digits) => match amount(digits) {
            Some(number) => Some(number),
            None => amount_within(bracketed, text),
        },
    }
}

fn zero_extension(text: &[u8]) -> Option<Builtin>
    ensures { result ≡ spec.extension (codes "zero_extend") (λ k. UnOp.ZeroExtend k) text.now }
{
    let front = b"zero_extend ".as_slice();
    match amount_behind(front, b"(_ zero_extend ".as_slice(), text) {
        None => None,
        Some(number) => Some(Builtin::Unary(UnOp::ZeroExtend(number))),
    }
}

fn sign_extension(text: &[u8]) -> Option<Builtin>
    ensures { result ≡ spec.extension (codes "sign_extend") (λ k. UnOp.SignExtend k) text.now }
{
    let front = b"sign_extend ".as_slice();
    match amount_behind(front, b"(_ sign_extend ".as_slice(), text) {
        None => None,
        Some(number) => Some(Builtin::Unary(UnOp::SignExtend(number))),
    }
}

/// The operator of a name.
fn builtin_named(text: &[u8]) -> Option<Builtin>
    ensures { result ≡ spec.builtin_named text.now }
{
    match operator_named(text) {
        Some(builtin) => Some(builtin),
        None => match zero_extension(text) {
            Some(builtin) => Some(builtin),
            None => sign_extension(text),
        },
    }
}

// ---- attributes

fn is_string(token: &Lexeme) -> bool
    ensures { result ≡ spec.is_string token.now }
{
    token.text.as_slice().starts_with(b"\"".as_slice())
}

// The bytes between the quotes.
fn inside(token: &Lexeme) -> &[u8]
    ensures { result.now ≡ spec.inside token.now }
{
    let text = token.text.as_slice();
    if text.len() < 2 {
        return &[];
    }
    &text[1..text.len() - 1]
}

// The strings of an attribute, behind those of a list.
fn push_strings<'a>(strings: &mut Vec<&'a [u8]>, attribute: &'a Attribute) -> Result<(), AllocError>
    ensures { OnOk result (map (λ t. t.now) strings.new.items ≡ map (λ t. t.now) strings.old.items ++ spec.strings_of attribute.now) }
{
    for token in attribute.tokens.as_slice() {
        if is_string(token) {
            strings.push(inside(token))?;
        }
    }
    Ok(())
}

// The strings of all attributes `bvbuiltin` of a function.
fn builtin_strings<'a>(alloc: Global, function: &'a Function) -> Result<Vec<&'a [u8]>, AllocError>
    ensures { IfOk result (λ strings. map (λ t. t.now) strings.items ≡ spec.builtin_strings function.now) }
{
    let mut strings = Vec::new(alloc);
    for attribute in function.attributes.as_slice() {
        if is_builtin_attribute(attribute) {
            push_strings(&mut strings, attribute)?;
        }
    }
    Ok(strings)
}

fn operator_if(builtin: Option<Builtin>) -> Meaning
    ensures { result ≡ spec.operator_if builtin }
{
    match builtin {
        None => Meaning::Nothing,
        Some(builtin) => Meaning::Operator(builtin),
    }
}

fn meaning_of_strings(strings: &[&[u8]]) -> Meaning
    ensures { result ≡ spec.meaning_of_strings (map (λ t. t.now) strings.now) }
{
    match strings {
        [] => Meaning::Nothing,
        [text] => operator_if(builtin_named(*text)),
        [_, _, ..] => Meaning::Nothing,
    }
}

/// What a function means: its body, else the operator that the only string of its attributes
/// `bvbuiltin` names, else nothing.
pub fn meaning_of(alloc: Global, function: &Function) -> Result<Meaning, AllocError>
    ensures { IfOk result (λ meaning. meaning ≡ spec.meaning_of function.now) }
{
    match &function.body {
        Some(_) => Ok(Meaning::Body),
        None => {
            let strings = builtin_strings(alloc, function)?;
            Ok(meaning_of_strings(strings.as_slice()))
        }
    }
}
