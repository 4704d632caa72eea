//! Neighbours that are tried one after another.
ghost use Rattle.ils_frame.specs.TriedNeighbours.{tried_at, tried_next};
ghost use Rattle.std.specs.Prelude.{◌≡◌, ◌≤◌, [], length, slice_get, IfOk, IfSome, IfNone};

use objective::Memory;
use param_space::Config;
use std::marker::Model;
use std::sync::Arc;

/// Neighbours that are tried one after another. A copy shares their list.
#[derive(Drop)]
pub(crate) struct Neighbours {
    configs: Arc<Vec<Config>>,
    /// The index of the one that is tried, from 0.
    index: usize,
}

impl Model for Neighbours {
    ghost use Rattle.std.specs.Prelude.{◌<◌, length};
    ghost use Rattle.ils_frame.specs.TriedNeighbours.{Tried, tried_at};

    ghost Value = { Tried };

    ghost view = { λ n. tried_at n.configs.value.items n.index };

    ghost invariant = { λ n. n.index < length n.configs.value.items };
}

impl Neighbours {
    /// The first one is tried.
    pub(crate) fn new(configs: Vec<Config>) -> Result<Neighbours, Memory>
        requires { 1 ≤ length configs.items }
        ensures { IfOk result (λ n. n ≡ tried_at configs.items 0) }
    {
        let alloc = *configs.allocator();
        Ok(Neighbours {
            configs: Arc::new(alloc, configs)?,
            index: 0,
        })
    }

    /// The one that is tried.
    pub(crate) fn tried(&self) -> &Config
        ensures { result.now ≡ self.now.neighbour }
    {
        &self.configs[self.index]
    }

    /// The one after it.
    pub(crate) fn next(&self) -> Option<&Config>
        ensures none { IfNone result (self.now.rest ≡ []) }
        ensures some { IfSome result (λ c. slice_get self.now.rest 0 ≡ Some c.now) }
    {
        self.configs.get(self.index + 1)
    }

    /// The next one is tried, where there is one. Takes no memory.
    pub(crate) fn advance(&mut self)
        ensures { self.new ≡ tried_next self.old }
    {
        if self.index + 1 < self.configs.len() {
            self.index += 1;
        }
    }

    /// The same neighbours, shared.
    pub(crate) fn copy(&self) -> Result<Neighbours, Memory>
        ensures { IfOk result (λ n. n ≡ self.now) }
    {
        Ok(Neighbours {
            configs: self.configs.clone()?,
            index: self.index,
        })
    }
}
