//! The words of a process: its arguments behind its own name.

ghost use Rattle.std.specs.Prelude.{◌≡◌, ◌++◌, IfOk, length, map, drop, string_bytes};
ghost use Rattle.std.specs.Vec.Iter.{into_iter_items, into_iter_len};
ghost use Rattle.hy_outside.specs.Arguments.{words_in};

use hy_text::Text;
use std::alloc::{AllocError, Global};
use std::env::Args;
use std::io;

/// The words that the arguments of a process are, as `env::args` tells them: all but the first one, which is the program's own name, and
/// none where one of the arguments is no text. `AllocError` comes where memory ran out, here or while they were told.
pub fn words_of(alloc: Global, arguments: io::Result<Args>) -> Result<Vec<Text>, AllocError>
    ensures { IfOk result (λ words. words.items ≡ words_in arguments) }
{
    match arguments {
        Ok(arguments) => words_behind(alloc, arguments),
        Err(error) => {
            if error.kind() == io::ErrorKind::OutOfMemory {
                return Err(AllocError);
            }
            Ok(Vec::new(alloc))
        }
    }
}

// The arguments behind the first one.
fn words_behind(alloc: Global, mut arguments: Args) -> Result<Vec<Text>, AllocError>
    ensures { IfOk result (λ words. words.items ≡ map string_bytes (drop 1 (into_iter_items arguments))) }
{
    let mut words = Vec::new(alloc);
    let _name = arguments.next();
    while let Some(argument) = arguments.next() {
        words.push(Text::from_str(alloc, argument.as_str())?)?;
    }
    Ok(words)
}
