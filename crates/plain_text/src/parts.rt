//! Texts that are cut at a separator.
ghost use Rattle.std.specs.Prelude.{◌≡◌, ◌==◌, ◌<◌, IfOk, map};
ghost use Rattle.std.specs.List.{slice_split};

use objective::Memory;
use std::alloc::Global;

/// The pieces of a text between its separators, in order; one more than there are separators.
pub fn pieces<'a>(alloc: Global, text: &'a str, separator: char) -> Result<Vec<&'a str>, Memory>
    requires { separator < 128 }
    ensures { IfOk result (λ v. map (λ x. x.now) v.items ≡ slice_split (λ b. b == separator) text.now) }
{
    let found = text.split(separator).collect(alloc)?;
    Ok(found)
}
