//! A text that contracts see as its bytes.
ghost use Rattle.std.specs.Prelude.{◌≡◌, IfOk, string_bytes};

use objective::Memory;
use std::alloc::Global;
use std::marker::Model;
use std::sync::Arc;

/// A UTF-8 text that contracts see as the list of its bytes. Copies share it.
#[derive(Drop)]
pub struct Text {
    inner: Arc<String>,
}

impl Model for Text {
    ghost use Rattle.std.specs.Prelude.{List, ℕ, string_bytes};

    ghost Value = { List ℕ };

    ghost view = { λ t. string_bytes t.inner.value };
}

impl PartialEq for Text {
    ghost use Rattle.std.specs.Prelude.{bytes_eq};
    ghost use Rattle.std.specs.Cmp.Rules.{comparing};
    ghost use Rattle.std.proofs.Common.{rules};

    ghost eq = { bytes_eq };

    ghost laws = { Prim.search (comparing, rules) };

    fn eq(&self, other: &Text) -> bool {
        self.as_str() == other.as_str()
    }
}

impl Eq for Text {
    ghost use Rattle.std.specs.Cmp.Rules.{comparing};
    ghost use Rattle.std.proofs.Common.{rules};

    ghost laws = { Prim.search (comparing, rules) };
}

impl Text {
    /// This text.
    pub fn new(inner: String) -> Result<Text, Memory>
        ensures { IfOk result (λ t. t ≡ string_bytes inner) }
    {
        let alloc = *inner.allocator();
        Ok(Text {
            inner: Arc::new(alloc, inner)?,
        })
    }

    /// A copy of these characters.
    pub fn of(alloc: Global, characters: &str) -> Result<Text, Memory>
        ensures { IfOk result (λ t. t ≡ characters.now) }
    {
        Text::new(String::from_str(alloc, characters)?)
    }

    /// The characters.
    pub fn as_str(&self) -> &str
        ensures { result.now ≡ self.now }
    {
        self.inner.as_str()
    }

    /// The same text, shared. Takes no memory.
    pub fn copy(&self) -> Result<Text, Memory>
        ensures { IfOk result (λ t. t ≡ self.now) }
    {
        Ok(Text {
            inner: self.inner.clone()?,
        })
    }
}
