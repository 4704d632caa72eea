//! A list of values that contracts see as a list.
ghost use Rattle.std.specs.Prelude.{◌≡◌, IfOk};

use objective::Memory;
use std::alloc::Global;
use std::marker::Model;
use std::sync::Arc;

/// A list that contracts see as the list of its values. Copies share it.
#[derive(Drop)]
pub struct Items<T>
where
    T: Drop,
{
    inner: Arc<Vec<T>>,
}

impl<T: Drop> Model for Items<T> {
    ghost use Rattle.std.specs.Prelude.{List};

    ghost Value = { List T };

    ghost view = { λ s. s.inner.value.items };
}

impl<T: PartialEq + Drop> PartialEq for Items<T> {
    ghost use Rattle.std.specs.Cmp.Lexicographic.{pointwise};
    ghost use Rattle.std.specs.Cmp.Rules.{comparing};
    ghost use Rattle.std.proofs.Common.{rules};

    ghost eq = { pointwise T.eq };

    ghost laws = { Prim.search (comparing, rules) };

    fn eq(&self, other: &Items<T>) -> bool {
        self.as_slice() == other.as_slice()
    }
}

impl<T: Eq + Drop> Eq for Items<T> {
    ghost use Rattle.std.specs.Cmp.Rules.{comparing};
    ghost use Rattle.std.proofs.Common.{rules};

    ghost laws = { Prim.search (comparing, rules) };
}

impl<T: Drop> Items<T> {
    /// The list of these values.
    pub fn new(inner: Vec<T>) -> Result<Items<T>, Memory>
        ensures { IfOk result (λ list. list ≡ inner.items) }
    {
        let alloc = *inner.allocator();
        Ok(Items {
            inner: Arc::new(alloc, inner)?,
        })
    }

    /// The same list, shared. Takes no memory.
    pub fn copy(&self) -> Result<Items<T>, Memory>
        ensures { IfOk result (λ c. c ≡ self.now) }
    {
        Ok(Items {
            inner: self.inner.clone()?,
        })
    }

    /// The values in order.
    pub fn as_slice(&self) -> &[T]
        ensures { result.now ≡ self.now }
    {
        self.inner.as_slice()
    }

    /// The allocator that the list keeps.
    pub fn allocator(&self) -> &Global {
        self.inner.allocator()
    }
}
