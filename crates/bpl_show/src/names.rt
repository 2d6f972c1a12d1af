//! Names, attributes and sorts.
ghost use Rattle.std.specs.Prelude.{◌≡◌, OnOk};
ghost use Rattle.bpl_show.specs.Names as spec;
ghost use Rattle.bpl_show.specs.Tokens.{written};

use crate::lists::{Show, each};
use crate::tokens::word;
use bpl_ast::{Attribute, Lexeme, Name, Sort};
use hy_text::Bytes;
use std::alloc::AllocError;

impl Show for Name {
    ghost tokens = { spec.name };

    fn show(&self, out: &mut Bytes) -> Result<(), AllocError> {
        word(out, self.text.as_slice())
    }
}

impl Show for Lexeme {
    ghost tokens = { spec.lexeme };

    fn show(&self, out: &mut Bytes) -> Result<(), AllocError> {
        word(out, self.text.as_slice())
    }
}

#[tactic(auto, using(crate::proofs::Written::writing))]
impl Show for Attribute {
    ghost tokens = { spec.attribute };

    fn show(&self, out: &mut Bytes) -> Result<(), AllocError> {
        word(out, b"{")?;
        word(out, b":")?;
        self.name.show(out)?;
        each(out, self.tokens.as_slice())?;
        word(out, b"}")
    }
}

/// Appends a sort: a recursion over its levels, of which the reader lets 200 nest.
#[tactic(auto, using(crate::proofs::Written::writing, crate::proofs::Equations::equations))]
pub fn sort(out: &mut Bytes, shown: &Sort) -> Result<(), AllocError>
    ensures { OnOk result (out.new ≡ written out.old (spec.sort shown.now)) }
{
    match shown {
        Sort::Boolean { .. } => word(out, b"bool"),
        Sort::Bits { text, .. } => word(out, text.as_slice()),
        Sort::Named { name } => name.show(out),
        Sort::Map { index, elem, .. } => {
            word(out, b"[")?;
            sort(out, index.get())?;
            word(out, b"]")?;
            sort(out, elem.get())
        }
    }
}
