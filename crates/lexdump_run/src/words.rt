//! The arguments of the program.
ghost use Rattle.std.specs.Prelude.{◌≡◌, IfOk, Some, drop, map, string_bytes};
ghost use Rattle.std.specs.Vec.Iter.{into_iter_items};
ghost use Rattle.lexdump_run.specs.Words.{words_of};

use std::alloc::{AllocError, Global};
use std::env::Args;

/// Returns the arguments after the first, which is the program's name.
///
/// # Errors
///
/// Returns `AllocError` if an allocation failed.
fn past_name(alloc: Global, mut args: Args) -> Result<Vec<String>, AllocError>
    ensures { IfOk result (λ words. words.items ≡ drop 1 (into_iter_items args)) }
{
    let _ = args.next();
    let mut words = Vec::new(alloc);
    while let Some(word) = args.next() {
        words.push(word)?;
    }
    Ok(words)
}

/// Returns the arguments after the first, which is the program's name.
///
/// # Errors
///
/// Returns `AllocError` if an allocation failed, or if `args` is `None` because the arguments could not be read.
pub fn read_words(alloc: Global, args: Option<Args>) -> Result<Vec<String>, AllocError>
    ensures { IfOk result (λ words. words_of args ≡ Some (map string_bytes words.items)) }
{
    past_name(alloc, args.ok_or(AllocError)?)
}
