//! Names and attributes.
ghost use Rattle.std.specs.Prelude.{◌≡◌, ◌↔◌, map, true};
ghost use Rattle.bpl_ast.specs.Alike.{bare_name, bare_lexeme, bare_attribute};

use crate::lists::{Compare, lists};
use bpl_ast::{Attribute, Lexeme, Name};

/// Whether two texts are equal.
pub(crate) fn texts(a: &[u8], b: &[u8]) -> bool
    ensures { result ≡ true ↔ a.now ≡ b.now }
{
    a == b
}

impl Compare for Name {
    ghost bare = { bare_name };

    fn is_like(&self, other: &Name) -> bool {
        texts(self.text.as_slice(), other.text.as_slice())
    }
}

impl Compare for Lexeme {
    ghost bare = { bare_lexeme };

    fn is_like(&self, other: &Lexeme) -> bool {
        texts(self.text.as_slice(), other.text.as_slice())
    }
}

impl Compare for Attribute {
    ghost bare = { bare_attribute };

    fn is_like(&self, other: &Attribute) -> bool {
        self.name.is_like(&other.name) && lists(self.tokens.as_slice(), other.tokens.as_slice())
    }
}
