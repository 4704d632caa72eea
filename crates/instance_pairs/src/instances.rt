//! The instance that a line names.
ghost use Rattle.std.specs.Prelude.{◌≡◌, IfOk};
ghost use Rattle.instance_pairs.specs.Files;

use objective::Memory;
use plain_text::{Text, after_word, end_trimmed, first_word, front_trimmed};
use std::alloc::Global;

/// An instance that configurations are run on.
#[derive(Drop, PartialEq, Eq)]
pub struct Instance {
    /// Its name.
    pub name: Text,
    /// What else a run is told of it.
    pub specifics: Text,
}

impl Instance {
    /// The same instance.
    pub fn copy(&self) -> Result<Instance, Memory>
        ensures { IfOk result (λ i. i ≡ self.now) }
    {
        Ok(Instance {
            name: self.name.copy()?,
            specifics: self.specifics.copy()?,
        })
    }
}

/// The text, or `0` where it is empty.
fn or_zero(text: &str) -> &str
    ensures { result.now ≡ Files.or_zero text.now }
{
    if text.is_empty() { "0" } else { text }
}

/// The instance of a line. None exactly where it has blanks alone.
#[tactic(auto, unfolding(crate::specs::Files::instance_of))]
pub(crate) fn instance_of(alloc: Global, line: &str) -> Result<Option<Instance>, Memory>
    ensures { IfOk result (λ i. i ≡ Files.instance_of line.now) }
{
    let text = front_trimmed(line);
    if text.is_empty() {
        return Ok(None);
    }
    let specifics = end_trimmed(front_trimmed(after_word(text)));
    Ok(Some(Instance {
        name: Text::of(alloc, first_word(text))?,
        specifics: Text::of(alloc, or_zero(specifics))?,
    }))
}
