//! What is tuned.
ghost use Rattle.std.specs.Prelude.{◌≡◌, ◌≤◌, ◌↔◌, IsTrue, IfOk, map};
ghost use Rattle.param_space.specs.Space.{Belongs};
ghost use Rattle.param_space.specs.Settings;
ghost use Rattle.board_steps.specs.ProblemRuns;

use ils_face::Rules;
use instance_pairs::Pairs;
use objective::Memory;
use param_space::{Config, Space};
use plain_text::Items;
use run_cache::Cell;
use std::alloc::Global;
use std::marker::Model;
use wrapper_lines::{Key, Setting};

/// The rules of a search and the pairs that configurations are run on. Its type keeps that both
/// have the same number of runs.
#[derive(Drop)]
pub struct Problem {
    /// The rules of the search.
    pub rules: Rules,
    /// The pairs that configurations are run on.
    pub pairs: Pairs,
}

impl Model for Problem {
    ghost use Rattle.std.specs.Prelude.{◌≡◌};
    ghost use Rattle.board_steps.specs.Problem as problem;

    ghost Value = { problem.Problem };

    ghost view = { λ p. record { rules = p.rules; pairs = p.pairs } };

    ghost invariant = { λ p. p.rules.max_runs ≡ p.pairs.max_runs };
}

impl PartialEq for Problem {
    ghost use Rattle.std.specs.Cmp.{partial_equiv_from_equiv};
    ghost use Rattle.std.specs.Ordering.{on, eq_of_both};
    ghost use Rattle.std.proofs.lemmas.Cmp.{and_equiv, on_equiv};
    ghost use Rattle.ils_face.specs.contracts.rules.RulesEq.TheImpl.Laws as rules;
    ghost use Rattle.instance_pairs.specs.contracts.pairs.PairsEq.TheImpl.Laws as pairs;

    ghost eq = { eq_of_both (on (λ p. p.rules) ⟦<Rules as PartialEq>⟧.eq)
        (on (λ p. p.pairs) ⟦<Pairs as PartialEq>⟧.eq) };

    ghost laws = { partial_equiv_from_equiv
        (and_equiv (on_equiv (λ p. p.rules) rules.laws-law) (on_equiv (λ p. p.pairs) pairs.laws-law)) };

    /// Whether both are the same problem.
    fn eq(&self, other: &Problem) -> bool
        ensures value { result ≡ ⟦<Problem as PartialEq>⟧.eq self.now other.now }
        ensures same { IsTrue result ↔ (self.now ≡ other.now) }
    {
        self.rules == other.rules && self.pairs == other.pairs
    }
}

impl Eq for Problem {
    ghost use Rattle.std.proofs.lemmas.Cmp.{and_equiv, on_equiv};
    ghost use Rattle.ils_face.specs.contracts.rules.RulesEq.TheImpl.Laws as rules;
    ghost use Rattle.instance_pairs.specs.contracts.pairs.PairsEq.TheImpl.Laws as pairs;

    ghost laws = { and_equiv (on_equiv (λ p. p.rules) rules.laws-law) (on_equiv (λ p. p.pairs) pairs.laws-law) };
}

/// The settings of a configuration: each active parameter's name with its value.
fn settings_of(alloc: Global, space: &Space, config: &Config) -> Result<Vec<Setting>, Memory>
    requires { Belongs space.now.params config.now }
    ensures { IfOk result (λ v. v.items ≡ map ProblemRuns.setting_from (Settings.active_values space.now config.now)) }
{
    let active = space.active_values(config)?;
    let mut settings = Vec::with_capacity(alloc, active.len())?;
    for named in &active {
        settings.push(Setting {
            name: named.name.copy()?,
            value: named.value.copy()?,
        })?;
    }
    Ok(settings)
}

/// A list of these settings: the earlier one where it has the same.
#[tactic(auto, using(crate::proofs::SameTickets::same_settings))]
fn shared_list(
    made: Vec<Setting>,
    earlier: Option<&Items<Setting>>,
) -> Result<Items<Setting>, Memory>
    ensures { IfOk result (λ list. list ≡ made.items) }
{
    match earlier {
        Some(list) if list.as_slice() == made.as_slice() => list.copy(),
        _ => Items::new(made),
    }
}

impl Problem {
    /// The same problem, shared. Takes no memory.
    pub fn copy(&self) -> Result<Problem, Memory>
        ensures { IfOk result (λ p. p ≡ self.now) }
    {
        Ok(Problem {
            rules: self.rules.copy()?,
            pairs: self.pairs.copy()?,
        })
    }

    /// What a cell's run is of: the pair of its place, and its settings. Its texts are those of
    /// the problem.
    pub fn key_of(&self, alloc: Global, cell: &Cell) -> Result<Key, Memory>
        requires belongs { Belongs self.now.rules.space.params cell.now.config }
        requires first { 1 ≤ cell.now.place }
        requires last { cell.now.place ≤ self.now.rules.max_runs }
        ensures { IfOk result (λ k. k ≡ ProblemRuns.key_of self.now cell.now) }
    {
        self.key_like(alloc, cell, None)
    }

    /// What a cell's run is of, as `key_of` tells. It shares the list of the earlier settings
    /// where its own are the same.
    #[tactic(auto, unfolding(crate::specs::ProblemRuns::key_of))]
    pub fn key_like(
        &self,
        alloc: Global,
        cell: &Cell,
        earlier: Option<&Items<Setting>>,
    ) -> Result<Key, Memory>
        requires belongs { Belongs self.now.rules.space.params cell.now.config }
        requires first { 1 ≤ cell.now.place }
        requires last { cell.now.place ≤ self.now.rules.max_runs }
        ensures { IfOk result (λ k. k ≡ ProblemRuns.key_of self.now cell.now) }
    {
        let settings = settings_of(alloc, &self.rules.space, &cell.config)?;
        let instance = self.pairs.instance(cell.place);
        Ok(Key {
            instance: instance.name.copy()?,
            specifics: instance.specifics.copy()?,
            seed: self.pairs.pair(cell.place).seed,
            settings: shared_list(settings, earlier)?,
        })
    }
}
