//! Lists of texts.
ghost use Rattle.std.specs.Prelude.{◌≡◌, ◌≤◌, IfOk, length, bytes_eq};
ghost use Rattle.std.specs.List.{list_any, position_or_len};
ghost use Rattle.plain_text.specs.Texts;

use crate::text::Text;
use objective::Memory;
use std::alloc::Global;
use std::collections::BTreeSet;

/// Whether the text stands among these.
pub fn has_text(texts: &[Text], text: &str) -> bool
    ensures { result ≡ list_any (bytes_eq text.now) texts.now }
{
    texts.iter().any(|other| text == other.as_str())
}

/// The index of a text among these, or how many there are.
pub fn position_of(texts: &[Text], text: &str) -> usize
    ensures value { result ≡ position_or_len (bytes_eq text.now) texts.now }
    ensures within { result ≤ length texts.now }
{
    for (i, other) in texts.iter().enumerate() {
        if text == other.as_str() {
            return i;
        }
    }
    texts.len()
}

/// Whether no two of the texts are equal.
pub fn texts_differ(alloc: Global, texts: &[Text]) -> Result<bool, Memory>
    ensures { IfOk result (λ r. r ≡ Texts.texts_differ texts.now) }
{
    let mut seen = BTreeSet::new(alloc);
    for text in texts {
        if !seen.insert(text.as_str())? {
            return Ok(false);
        }
    }
    Ok(true)
}
