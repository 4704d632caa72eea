//! The incumbents of a comparer.
ghost use Rattle.std.specs.Prelude.{◌≡◌, ◌++◌, ◌∷◌, [], IfOk, OnOk, OnErr};

use ils_face::Entry;
use objective::Memory;
use std::alloc::Global;
use std::marker::Model;
use std::sync::Arc;

/// Incumbents, oldest first. A copy shares their list; where one of the two has a further
/// one, it copies the list first.
#[derive(Drop)]
pub struct Entries {
    list: Arc<Vec<Entry>>,
}

impl Model for Entries {
    ghost use Rattle.std.specs.Prelude.{List};
    ghost use Rattle.uncapped.specs.Procedure.{Incumbent};

    ghost Value = { List Incumbent };

    ghost view = { λ e. e.list.value.items };
}

/// The same incumbents, with room for one more.
fn copied(alloc: Global, entries: &[Entry]) -> Result<Vec<Entry>, Memory>
    ensures { IfOk result (λ es. es.items ≡ entries.now) }
{
    let mut copies = Vec::with_capacity(alloc, entries.len() + 1)?;
    for entry in entries {
        copies.push(entry.copy()?)?;
    }
    Ok(copies)
}

impl Entries {
    /// No incumbent.
    pub fn new(alloc: Global) -> Result<Entries, Memory>
        ensures { IfOk result (λ e. e ≡ []) }
    {
        Ok(Entries {
            list: Arc::new(alloc, Vec::new(alloc))?,
        })
    }

    /// Adds an incumbent. Where there is no memory left, all is as it was.
    pub fn push(&mut self, entry: Entry) -> Result<(), Memory>
        ensures ok { OnOk result (self.new ≡ self.old ++ entry ∷ []) }
        ensures err { OnErr result (self.new ≡ self.old) }
    {
        if let Some(list) = Arc::get_mut(&mut self.list) {
            list.push(entry)?;
            return Ok(());
        }
        let alloc = *self.list.allocator();
        let mut list = copied(alloc, &self.list)?;
        list.push(entry)?;
        self.list = Arc::new(alloc, list)?;
        Ok(())
    }

    /// The incumbents.
    pub fn as_slice(&self) -> &[Entry]
        ensures { result.now ≡ self.now }
    {
        self.list.as_slice()
    }

    /// The same incumbents, shared.
    pub fn copy(&self) -> Result<Entries, Memory>
        ensures { IfOk result (λ e. e ≡ self.now) }
    {
        Ok(Entries {
            list: self.list.clone()?,
        })
    }
}
