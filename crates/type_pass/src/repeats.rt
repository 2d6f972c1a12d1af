//! Names that stand a second time.

ghost use Rattle.std.specs.Prelude.{◌≡◌, map, IfOk};
ghost use Rattle.type_pass.specs.Faults.{first};
ghost use Rattle.type_pass.specs.Names.{repeats};

use crate::fault::{TypeFault, TypeKind, earlier};
use bpl_ast::Name;
use indexmap::IndexSet;
use std::alloc::{AllocError, Global};

/// The first fault of names of one space: Twice at each name that stands before in the list.
pub fn repeats(alloc: Global, names: &[&Name]) -> Result<Option<TypeFault>, AllocError>
    ensures { IfOk result (λ found. found ≡ first (repeats (map (λ n. n.now) names.now))) }
{
    let mut seen: IndexSet<&[u8]> = IndexSet::new(alloc);
    let mut found = None;
    for name in names {
        if !seen.insert(name.text.as_slice())? {
            let twice = TypeFault {
                at: name.at,
                kind: TypeKind::Twice,
            };
            found = earlier(found, Some(twice));
        }
    }
    Ok(found)
}
