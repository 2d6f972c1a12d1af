//! Whole programs.
ghost use Rattle.std.specs.Prelude.{◌≡◌, ◌↔◌, true};
ghost use Rattle.bpl_ast.specs.Alike.{AreAlike};

use crate::lists::lists;
use bpl_ast::Ast;

/// Whether two programs are alike: equal but for the offsets of their tokens, and with the brackets after an operand as one
/// list however the text groups them. Linear in the smaller of two trees that were read, and it ends at the first difference; the
/// recursion goes by the levels of both trees, and takes no memory but the stack.
pub fn alike(a: &Ast, b: &Ast) -> bool
    ensures { result ≡ true ↔ AreAlike a.now b.now }
{
    lists(a.decls.as_slice(), b.decls.as_slice())
}
