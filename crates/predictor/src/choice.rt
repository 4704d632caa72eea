//! Wishes in the making.
ghost use Rattle.std.specs.Prelude.{◌≡◌, IfOk, OnOk};
ghost use Rattle.run_cache.specs.Caches.{known_in};
ghost use Rattle.predictor.specs.Choices as choices;
ghost use Rattle.predictor.specs.Choices.{run_of, none_yet, with_wish, with_unsettled, with_runs};
ghost use Rattle.predictor.specs.Wishes.{runs_after};

use crate::wish::Wish;
use objective::{Memory, Micros};
use param_space::Config;
use run_cache::{Cache, Cell, Known, known_next};
use std::alloc::Global;
use std::marker::Model;

/// The wishes so far, at most so many, beside a cell that is needed.
#[derive(Drop)]
pub(crate) struct Choice {
    needed: Cell,
    most: u32,
    wishes: Vec<Wish>,
}

impl Model for Choice {
    ghost use Rattle.predictor.specs.Choices as choices;

    ghost Value = { choices.Choice };

    ghost view = { λ c. record { needed = c.needed; most = c.most; wishes = c.wishes.items } };
}

impl Choice {
    /// No wishes yet, beside the configuration at the place.
    pub(crate) fn new(
        alloc: Global,
        config: &Config,
        place: u32,
        most: u32,
    ) -> Result<Choice, Memory>
        ensures { IfOk result (λ c. c ≡ none_yet most config.now place) }
    {
        Ok(Choice {
            needed: Cell::at(config, place)?,
            most,
            wishes: Vec::new(alloc),
        })
    }

    /// The wishes.
    pub(crate) fn into_wishes(self) -> Vec<Wish>
        ensures { result.items ≡ self.wishes }
    {
        let Choice { wishes, .. } = self;
        wishes
    }

    /// Whether there are fewer wishes than the most.
    pub(crate) fn has_room(&self) -> bool
        ensures { result ≡ choices.has_room self.now }
    {
        self.wishes.len() < self.most as usize
    }

    /// Whether a wish is for the configuration at the place.
    fn has_wish(&self, config: &Config, place: u32) -> bool
        ensures { result ≡ choices.has_wish self.now.wishes config.now place }
    {
        for wish in &self.wishes {
            if wish.cell.is_at(config, place) {
                return true;
            }
        }
        false
    }

    /// Adds a wish for a run, where there is room and its cell is new.
    pub(crate) fn add(&mut self, config: &Config, place: u32, cutoff: Micros) -> Result<(), Memory>
        ensures { OnOk result (self.new ≡ with_wish self.old (run_of config.now place cutoff.0)) }
    {
        if !self.has_room() || self.needed.is_at(config, place) || self.has_wish(config, place) {
            return Ok(());
        }
        let cell = Cell::at(config, place)?;
        self.wishes.push(Wish { cell, cutoff })?;
        Ok(())
    }

    /// Adds a wish for a run, unless it would tell nothing more than what is known of its cell.
    fn add_unsettled(
        &mut self,
        known: Known,
        config: &Config,
        place: u32,
        cutoff: Micros,
    ) -> Result<(), Memory>
        ensures { OnOk result (self.new ≡ with_unsettled known self.old (run_of config.now place cutoff.0)) }
    {
        if known.is_settled(cutoff) {
            return Ok(());
        }
        self.add(config, place, cutoff)
    }

    /// Adds wishes for a configuration's runs at the places after this one, up to the last,
    /// while there is room. Those that would tell nothing more are left out.
    pub(crate) fn add_after(
        &mut self,
        cache: &Cache,
        config: &Config,
        place: u32,
        last: u32,
        cutoff: Micros,
    ) -> Result<(), Memory>
        ensures { let runs = runs_after config.now cutoff.0 place last in
            OnOk result (self.new ≡ with_runs (known_in cache.now) self.old runs) }
    {
        let row = cache.row(config);
        for done in place..last {
            if !self.has_room() {
                return Ok(());
            }
            self.add_unsettled(known_next(row, done), config, done + 1, cutoff)?;
        }
        Ok(())
    }
}
