//! The implementations of a program, with their look-up by hash.

ghost use Rattle.std.specs.Prelude.{◌≡◌, map, find, IfOk};
ghost use Rattle.std.specs.Option.{option_copied};
ghost use Rattle.std.specs.Str.{bytes_eq};
ghost use Rattle.type_pass.specs.Declarations as declared;

use bpl_ast::{Ast, Decl, Implementation};
use sqlite_items::at;
use std::alloc::{AllocError, Global};
use type_pass::numbers::Numbers;
use type_pass::tabled::implemented;

/// The implementations of a program with an index of their names.
#[derive(Drop)]
pub struct Implementations<'a> {
    /// The implementations.
    pub items: Vec<&'a Implementation>,
    /// Their names.
    pub names: Numbers<'a>,
    /// The names are theirs.
    pub ghost named: { names ≡ map (λ i. i.now.name.text) items.items },
}

// The implementations, in the order of their declarations.
fn implementations_of<'a>(
    alloc: Global,
    ast: &'a Ast,
) -> Result<Vec<&'a Implementation>, AllocError>
    ensures { IfOk result (λ found. map (λ i. i.now) found.items ≡ declared.implementations ast.now) }
{
    let mut found = Vec::new(alloc);
    for decl in ast.decls.as_slice() {
        if let Decl::Implementation(implementation) = decl {
            found.push(implementation)?;
        }
    }
    Ok(found)
}

impl<'a> Implementations<'a> {
    /// Those of a program, in the order of their declarations.
    #[tactic(auto, using(crate::proofs::ImplementationLaws::names_laws))]
    pub fn new(alloc: Global, ast: &'a Ast) -> Result<Implementations<'a>, AllocError>
        ensures { IfOk result (λ found. map (λ i. i.now) found.items.items ≡ declared.implementations ast.now) }
    {
        let items = implementations_of(alloc, ast)?;
        let names = implemented(alloc, ast)?;
        Ok(Implementations { items, names })
    }

    /// The first of this name.
    pub fn named(&self, text: &[u8]) -> Option<&Implementation>
        ensures { option_copied result ≡ find (λ i. bytes_eq text.now i.name.text) (map (λ i. i.now) self.now.items.items) }
    {
        match self.names.number(text) {
            None => None,
            Some(place) => match at(self.items.as_slice(), place) {
                None => None,
                Some(found) => Some(*found),
            },
        }
    }
}
