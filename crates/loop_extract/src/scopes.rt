//! The scopes of a procedure: which one a block stands in, and which loops are reached.
ghost use Rattle.std.specs.Prelude.{◌≡◌, ◌<◌, ◌++◌, ◌∷◌, [], ℕ, length, replicate, map, if◌then◌else◌, slice_index_or, filter, IfOk, IsTrue, OnOk};
ghost use Rattle.std.specs.List.{list_all};
ghost use Rattle.src_prog.specs.Loops.{are_nested, holds_block, loop_is_within};
ghost use Rattle.extract_def.specs.Scopes as spec;
ghost use Rattle.extract_def.specs.declared.scope.Scope.TheVariants.{In, Whole};
ghost use Rattle.loop_extract.specs.Heads.{head_of, is_up};

use extract_def::Scope;
use sqlite_items::Items;
use src_prog::SrcLoop;
use std::alloc::{AllocError, Global};

/// A loop whose head is reached.
#[derive(Clone, Copy, Debug, PartialEq, Eq)]
pub struct Head {
    /// The loop.
    pub span: SrcLoop,
    /// The scope directly around it.
    pub around: Scope,
}

/// The scope of each block, and the loops whose heads are reached.
#[derive(Drop)]
pub struct Scopes {
    /// The scope of each block.
    pub of_blocks: Vec<Scope>,
    /// The loops whose heads are reached, by head.
    pub heads: Items<Head>,
}

// So many times the whole procedure.
fn all_whole(alloc: Global, count: usize) -> Result<Vec<Scope>, AllocError>
    ensures { IfOk result (λ scopes. scopes.items ≡ replicate count Whole) }
{
    vec![in alloc; Scope::Whole; count]
}

// The loop is the scope of its blocks.
fn fill(scopes: &mut Vec<Scope>, span: SrcLoop)
    ensures size { length scopes.new.items ≡ length scopes.old.items }
    ensures filled { (n : ℕ) → n < length scopes.old.items → slice_index_or scopes.new.items n Whole ≡ (if holds_block span n then In span.head span.exit else slice_index_or scopes.old.items n Whole) }
{
    if span.exit <= span.head {
        return;
    }
    for block in span.head..span.exit {
        let number = block as usize;
        if number < scopes.len() {
            scopes[number] = Scope::In {
                head: span.head,
                exit: span.exit,
            };
        }
    }
}

// The loop with the scope directly around it, behind the others, if its head is reached.
fn push_head(
    heads: &mut Items<Head>,
    up: &[bool],
    around: Scope,
    span: SrcLoop,
) -> Result<(), AllocError>
    requires { span.head < length up.now }
    ensures { OnOk result (heads.new ≡ heads.old ++ (if is_up up.now span then record { span = span; around = around } ∷ [] else [])) }
{
    if up[span.head as usize] {
        heads.push(Head { span, around })?;
    }
    Ok(())
}

/// The scope of each block, and the loops whose heads are reached.
pub fn scopes_of(alloc: Global, up: &[bool], spans: &[SrcLoop]) -> Result<Scopes, AllocError>
    requires within { IsTrue (list_all (loop_is_within (length up.now)) spans.now) }
    requires nested { IsTrue (are_nested spans.now) }
    ensures size { IfOk result (λ s. length s.of_blocks.items ≡ length up.now) }
    ensures blocks { IfOk result (λ s. (n : ℕ) → n < length up.now → slice_index_or s.of_blocks.items n Whole ≡ spec.scope_of spans.now n) }
    ensures heads { IfOk result (λ s. s.heads ≡ map (head_of spans.now) (filter (is_up up.now) spans.now)) }
{
    let mut of_blocks = all_whole(alloc, up.len())?;
    let mut heads = Items::new(alloc);
    for span in spans {
        let around = of_blocks[span.head as usize];
        push_head(&mut heads, up, around, *span)?;
        fill(&mut of_blocks, *span);
    }
    Ok(Scopes { of_blocks, heads })
}
