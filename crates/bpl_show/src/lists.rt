//! What has a canonical form, and lists of it.
ghost use Rattle.std.specs.Prelude.{◌≡◌, List, ◌++◌, flat_map, codes, OnOk};
ghost use Rattle.bpl_show.specs.Names as spec;
ghost use Rattle.bpl_show.specs.Tokens.{Token, word, written};

use crate::tokens::word;
use hy_text::Bytes;
use std::alloc::AllocError;

/// What has a canonical form.
pub trait Show {
    /// The tokens of the form.
    ghost tokens: { Self → List Token };

    /// Appends the tokens.
    fn show(&self, out: &mut Bytes) -> Result<(), AllocError>
        ensures { OnOk result (out.new ≡ written out.old (tokens self.now)) };
}

/// Appends the items, one after the other.
#[tactic(auto, using(crate::proofs::Written::writing))]
pub fn each<T: Show>(out: &mut Bytes, items: &[T]) -> Result<(), AllocError>
    ensures { OnOk result (out.new ≡ written out.old (flat_map T.tokens items.now)) }
{
    for item in items {
        item.show(out)?;
    }
    Ok(())
}

/// Appends each item behind a comma.
#[tactic(auto, using(crate::proofs::Written::writing))]
fn behind_commas<T: Show>(out: &mut Bytes, items: &[T]) -> Result<(), AllocError>
    ensures { OnOk result (out.new ≡ written out.old (flat_map (λ x. word (codes ",") ++ T.tokens x) items.now)) }
{
    for item in items {
        word(out, b",")?;
        item.show(out)?;
    }
    Ok(())
}

/// Appends the items with commas between them.
#[tactic(auto, using(crate::proofs::Written::writing))]
pub fn listed<T: Show>(out: &mut Bytes, items: &[T]) -> Result<(), AllocError>
    ensures { OnOk result (out.new ≡ written out.old (spec.listed T.tokens items.now)) }
{
    match items {
        [] => Ok(()),
        [first, others @ ..] => {
            first.show(out)?;
            behind_commas(out, others)
        }
    }
}
