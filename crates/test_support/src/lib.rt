//! What the crates of tests share: a small space from lines of a parameter file, words from
//! one text, and lists of numbers.
#![tactic(auto)]

ghost use Rattle.std.specs.Prelude.{◌≡◌, IfOk, Ok};
ghost use Rattle.param_files.specs.Reading.{params_read};

use objective::Memory;
use param_files::{ParamFault, read_params};
use param_space::Space;
use plain_text::{Items, Text};
use std::alloc::Global;

/// The space of these lines of a parameter file.
///
/// # Errors
/// The first rule that they break, or [`ParamFault::Memory`].
pub fn space_of(alloc: Global, lines: &str) -> Result<Space, ParamFault>
    ensures { IfOk result (λ s. params_read lines.now ≡ Ok s) }
{
    read_params(alloc, lines.as_bytes())
}

/// The words between the bars of a text; none where it is empty.
pub fn words_between(alloc: Global, text: &str) -> Result<Vec<Text>, Memory> {
    let mut words = Vec::new(alloc);
    if text.is_empty() {
        return Ok(words);
    }
    for word in text.split('|') {
        words.push(Text::of(alloc, word)?)?;
    }
    Ok(words)
}

/// A list of these numbers.
pub fn numbers(alloc: Global, numbers: &[u32]) -> Result<Items<u32>, Memory>
    ensures { IfOk result (λ list. list ≡ numbers.now) }
{
    Items::new(Vec::from_slice(alloc, numbers)?)
}
