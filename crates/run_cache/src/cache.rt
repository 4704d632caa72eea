//! The cache.
ghost use Rattle.std.specs.Prelude.{◌≡◌, ◌≢◌, ◌≤◌, ◌+◌, ℕ, suc, List, [], length, bytes_eq, IsTrue, IsOk, OnOk, OnErr, IfSome};
ghost use Rattle.std.specs.List.{position};
ghost use Rattle.objective.specs.declared.Outcome.{Outcome};
ghost use Rattle.objective.specs.Bounds.{AreInRange};
ghost use Rattle.objective.specs.Costs.{Table, IsWithin, seen};
ghost use Rattle.objective.specs.Limits.{max_runs};
ghost use Rattle.run_cache.specs.Knowledge.{Agrees, IsInRange};
ghost use Rattle.run_cache.specs.Fronts.{front_of, sums_of};
ghost use Rattle.run_cache.specs.Learning;
ghost use Rattle.run_cache.specs.Caches.{IsCutoff, IsRow, AreRows, AgreesWith, GoesWith, row_of, rows_with, known_in, known_of, known_after, has_place_in, has_place_for, lesson_in, conflicts_after, configs_of, configs_with};

use crate::cell::Cell;
use crate::front::Front;
use crate::known::{Known, Learnt, known_next};
use crate::learning::{learnt, lesson_of};
use crate::row::Row;
use indexmap::IndexMap;
use objective::{Answer, Limits, Memory, Micros, Sum};
use param_space::Config;
use std::alloc::Global;
use std::marker::Model;

/// What is known of each configuration at each place, under the limits of one tuning.
///
/// Its type keeps that each cost is at most the full cutoff or is the penalty, and that each
/// timeout has a cutoff from 1 to below the full one. A look-up costs the same however much is known.
#[derive(Drop)]
pub struct Cache {
    limits: Limits,
    conflicts: u64,
    rows: IndexMap<Config, Row>,
}

impl Model for Cache {
    ghost use Rattle.run_cache.specs.Caches.{Cached, AreRows};

    ghost Value = { Cached };

    ghost view = { λ c. record { limits = c.limits; conflicts = c.conflicts; rows = c.rows.entries } };

    ghost invariant = { λ c. AreRows c.limits c.rows.entries };
}

/// The count of conflicts after a run, which stands still at the greatest number.
fn count_after(conflicts: u64, conflict: bool) -> u64
    ensures { result ≡ conflicts_after conflicts conflict }
{
    if conflict {
        conflicts.saturating_add(1)
    } else {
        conflicts
    }
}

/// The limits lie in their ranges, which their type keeps.
fn are_ranged(limits: &Limits)
    ensures { AreInRange limits.now.cutoff limits.now.floor }
{
    let _ = &limits.cutoff;
}

impl Cache {
    /// A cache that knows nothing. Takes no memory.
    pub fn new(alloc: Global, limits: Limits) -> Cache
        ensures { result ≡ record { limits = limits; conflicts = 0; rows = [] } }
    {
        Cache {
            limits,
            conflicts: 0,
            rows: IndexMap::new(alloc),
        }
    }

    /// The limits of all runs.
    pub fn limits(&self) -> &Limits
        ensures { result.now ≡ self.now.limits }
    {
        &self.limits
    }

    /// The runs whose answers contradicted what was known. It stands still at the greatest number.
    pub fn conflicts(&self) -> u64
        ensures { result ≡ self.now.conflicts }
    {
        self.conflicts
    }

    /// The number of configurations that have a row.
    pub fn configs(&self) -> usize
        ensures { result ≡ length (configs_of self.now) }
    {
        self.rows.len()
    }

    /// The configuration's number, from 0, in the order in which configurations first got a place.
    pub fn number_of(&self, config: &Config) -> Option<usize>
        ensures { result ≡ position (bytes_eq config.now) (configs_of self.now) }
    {
        self.rows.get_index_of(config)
    }

    /// What is known of a configuration up to its least place that isn't exact, by one look-up.
    pub fn at_front(&self, config: &Config) -> Front<'_>
        ensures sums { result.sums.now ≡ sums_of (row_of self.now.rows config.now) }
        ensures known { result.known ≡ known_in self.now config.now (front_of (row_of self.now.rows config.now)) }
        ensures few { length result.sums.now ≤ max_runs }
        ensures in_range { IsRow self.now.limits (row_of self.now.rows config.now) }
    {
        match self.rows.get(config) {
            Some(row) => row.at_front(),
            None => Front {
                sums: &[],
                known: Known::Nothing,
            },
        }
    }

    /// The configuration's least place that isn't exact: 1 where it has no row.
    pub fn front(&self, config: &Config) -> u32
        ensures { result ≡ front_of (row_of self.now.rows config.now) }
    {
        self.sums(config).len() as u32 + 1
    }

    /// The sums of the costs of the places 1 to k, for each k before the configuration's front.
    /// There are none where it has no row.
    pub fn sums(&self, config: &Config) -> &[Sum]
        ensures value { result.now ≡ sums_of (row_of self.now.rows config.now) }
        ensures up_to_front { length result.now + 1 ≡ front_of (row_of self.now.rows config.now) }
        ensures few { length result.now ≤ max_runs }
    {
        self.at_front(config).sums
    }

    /// What is known of a configuration by place, from place 1 on. Nothing is known past its end.
    pub fn row(&self, config: &Config) -> &[Known]
        ensures value { result.now ≡ row_of self.now.rows config.now }
        ensures in_range { IsRow self.now.limits result.now }
    {
        match self.rows.get(config) {
            Some(row) => row.places(),
            None => &[],
        }
    }

    /// What is known of a configuration at a place.
    #[tactic(auto, using(crate::proofs::Ranges::known_ranged))]
    pub fn known_at(&self, config: &Config, place: u32) -> Known
        ensures value { result ≡ known_in self.now config.now place }
        ensures in_range { IsInRange self.now.limits result }
    {
        match place.checked_sub(1) {
            Some(done) => known_next(self.row(config), done),
            None => Known::Nothing,
        }
    }

    /// What is known of a cell.
    pub fn known(&self, cell: &Cell) -> Known
        ensures value { result ≡ known_of self.now cell.now }
        ensures in_range { IsInRange self.now.limits result }
    {
        self.known_at(&cell.config, cell.place)
    }

    /// Whether there is a place for what is learnt of a cell.
    pub fn has_place(&self, cell: &Cell) -> bool
        ensures { result ≡ has_place_for self.now cell.now }
    {
        0 < cell.place && cell.place as usize <= self.row(&cell.config).len()
    }

    /// Makes a place for what is learnt of a cell, and takes no memory where there is one. After want of
    /// memory the cache is as it was.
    pub fn reserve(&mut self, cell: &Cell) -> Result<(), Memory>
        requires from_one { 1 ≤ cell.now.place }
        requires most { cell.now.place ≤ max_runs }
        ensures place { OnOk result (IsTrue (has_place_for self.new cell.now)) }
        ensures places { (config : List ℕ) (place : ℕ)
            → IsTrue (has_place_in self.old config place) → IsTrue (has_place_in self.new config place) }
        ensures known { known_in self.new ≡ known_in self.old }
        ensures limits { self.new.limits ≡ self.old.limits }
        ensures conflicts { self.new.conflicts ≡ self.old.conflicts }
        ensures configs { OnOk result (configs_of self.new ≡ configs_with self.old cell.now.config) }
        ensures err { OnErr result (self.new ≡ self.old) }
        ensures has_place { IsTrue (has_place_for self.old cell.now) → IsOk result }
    {
        if self.has_place(cell) {
            return Ok(());
        }
        if let Some(row) = self.rows.get_mut(&cell.config) {
            return row.grow(cell.place);
        }
        let config = cell.config.copy()?;
        let row = Row::with(*self.rows.allocator(), cell.place)?;
        self.rows.insert(config, row)?;
        Ok(())
    }

    /// Puts down what is known of a cell that has a place.
    fn set(&mut self, cell: &Cell, known: Known)
        requires place { IsTrue (has_place_for self.old cell.now) }
        requires in_range { IsInRange self.old.limits known }
        ensures { self.new ≡ record self.old { rows = rows_with self.old.rows cell.now known } }
    {
        are_ranged(&self.limits);
        match self.rows.get_mut(&cell.config) {
            Some(row) => row.set(cell.place, known),
            None => unreachable!(),
        }
    }

    /// Learns the answer of a run of a cell that has a place, under a cutoff. Takes no memory.
    pub fn learn(&mut self, cell: &Cell, cutoff: Micros, answer: Answer) -> Learnt
        requires place { IsTrue (has_place_for self.old cell.now) }
        requires cutoff { IsCutoff self.old.limits cutoff.0 }
        requires within { IsWithin answer cutoff.0 }
        ensures answer { result
            ≡ Learning.learnt (known_of self.old cell.now) (lesson_in self.old cell.now cutoff.0 answer) }
        ensures known { known_in self.new
            ≡ known_after (known_in self.old) cell.now (lesson_in self.old cell.now cutoff.0 answer).known }
        ensures conflicts { self.new.conflicts
            ≡ conflicts_after self.old.conflicts (lesson_in self.old cell.now cutoff.0 answer).conflict }
        ensures limits { self.new.limits ≡ self.old.limits }
        ensures places { has_place_in self.new ≡ has_place_in self.old }
        ensures configs { configs_of self.new ≡ configs_of self.old }
        ensures outcome { (o : Outcome) → Agrees self.old.limits (known_of self.old cell.now) o
            → answer ≡ seen o cutoff.0 → GoesWith self.old self.new cell.now o result }
        ensures table { (T : Table) → AgreesWith T self.old → answer ≡ seen (T cell.now.config cell.now.place) cutoff.0
            → AgreesWith T self.new }
    {
        let before = self.known(cell);
        let lesson = lesson_of(&self.limits, before, cutoff, answer);
        self.set(cell, lesson.known);
        self.conflicts = count_after(self.conflicts, lesson.conflict);
        learnt(before, lesson)
    }
}
