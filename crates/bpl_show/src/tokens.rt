//! Tokens, written at the end of a text.
ghost use Rattle.std.specs.Prelude.{◌≡◌, [], ◌∷◌, ◌++◌, OnOk};
ghost use Rattle.bpl_show.specs.Exprs as spec;
ghost use Rattle.bpl_show.specs.Tokens.{written};
ghost use Rattle.bpl_show.specs.Tokens as spec_token;

use hy_text::{Bytes, put_u64};
use itoa::Buffer;
use std::alloc::AllocError;

/// Appends what parts a token from the next one.
fn gap_after(out: &mut Bytes, ends_line: bool) -> Result<(), AllocError>
    ensures { OnOk result (out.new ≡ out.old ++ spec_token.gap_after ends_line ∷ []) }
{
    out.push(if ends_line { b'\n' } else { b' ' })
}

/// Appends a token, after which the line ends or not.
#[tactic(auto, using(crate::proofs::Written::marks))]
pub fn mark(out: &mut Bytes, ends_line: bool, text: &[u8]) -> Result<(), AllocError>
    ensures { OnOk result (out.new ≡ written out.old (spec_token.mark ends_line text.now)) }
{
    out.append(text)?;
    gap_after(out, ends_line)
}

/// Appends a token within a line.
pub fn word(out: &mut Bytes, text: &[u8]) -> Result<(), AllocError>
    ensures { OnOk result (out.new ≡ written out.old (spec_token.word text.now)) }
{
    mark(out, false, text)
}

/// Appends the last token of a line.
pub fn last(out: &mut Bytes, text: &[u8]) -> Result<(), AllocError>
    ensures { OnOk result (out.new ≡ written out.old (spec_token.last text.now)) }
{
    mark(out, true, text)
}

/// Appends a number, without leading zeros.
pub fn number(out: &mut Bytes, n: u128) -> Result<(), AllocError>
    ensures { OnOk result (out.new ≡ written out.old (spec_token.number n)) }
{
    let mut buffer = Buffer::new();
    word(out, buffer.format(n).as_bytes())
}

/// Appends a literal, without leading zeros.
#[tactic(auto, using(crate::proofs::Written::marks))]
pub fn literal(out: &mut Bytes, width: u32, bits: u64) -> Result<(), AllocError>
    ensures { OnOk result (out.new ≡ written out.old (spec_token.word (spec.literal width bits))) }
{
    put_u64(out, bits)?;
    out.append(b"bv")?;
    put_u64(out, u64::from(width))?;
    gap_after(out, false)
}
