//! The rules of a search.
ghost use Rattle.std.specs.Prelude.{◌≡◌, IfOk};
ghost use Rattle.ils_face.specs.Rules.{AreRules};

use objective::{Limits, Memory};
use param_space::Space;
use std::marker::Model;

/// What a search goes by. Its type keeps each number within its limits.
#[derive(Drop)]
pub struct Rules {
    /// The parameter space.
    pub space: Space,
    /// The seed of all draws.
    pub seed: u32,
    /// The pairs of a comparison, at most: 1 to `MAX_RUNS`.
    pub max_runs: u32,
    /// The comparisons of a tuning: 0 to `MAX_COMPARISONS`.
    pub budget: u32,
    /// The random configurations that the default is compared with at first: 0 to
    /// `MAX_INITIAL`.
    pub initial: u32,
    /// The random steps of a perturbation: 1 to `MAX_STRENGTH`.
    pub strength: u32,
    /// How often the search restarts, in ten-thousandths: 0 to `MAX_RESTART`.
    pub restart: u16,
    /// What bounds and prices a run.
    pub limits: Limits,
    /// The seats that work on a tuning: 1 to `MAX_WORKERS`.
    pub workers: u32,
}

impl Model for Rules {
    ghost use Rattle.ils_face.specs.Rules as rules;

    ghost Value = { rules.Rules };

    ghost view = { λ r. record {
      space = r.space;
      seed = r.seed;
      max_runs = r.max_runs;
      budget = r.budget;
      initial = r.initial;
      strength = r.strength;
      restart = r.restart;
      limits = r.limits;
      workers = r.workers;
    } };

    ghost invariant = { λ r. rules.AreRules (view r) };
}

impl PartialEq for Rules {
    ghost use Rattle.std.specs.Prelude.{nat_eq};
    ghost use Rattle.std.specs.Cmp.{partial_equiv_from_equiv};
    ghost use Rattle.std.specs.Cmp.Lexicographic.{pointwise};
    ghost use Rattle.std.specs.Ordering.{on, eq_of_both};
    ghost use Rattle.std.proofs.lemmas.Cmp.{and_equiv, on_equiv, lists_equiv, nat_eq_equiv};
    ghost use Rattle.param_space.specs.contracts.space.SpaceEq.TheImpl.Laws as space;
    ghost use Rattle.objective.specs.contracts.LimitsEq.TheImpl.Laws as limits;
    ghost use Rattle.ils_face.specs.Rules.{numbers_of};

    ghost eq = { eq_of_both (on (λ r. r.space) ⟦<Space as PartialEq>⟧.eq) (eq_of_both
        (on (λ r. r.limits) ⟦<Limits as PartialEq>⟧.eq) (on numbers_of (pointwise nat_eq))) };

    ghost laws = { partial_equiv_from_equiv (and_equiv (on_equiv (λ r. r.space) space.laws-law)
        (and_equiv (on_equiv (λ r. r.limits) limits.laws-law) (on_equiv numbers_of (lists_equiv nat_eq_equiv)))) };

    fn eq(&self, other: &Rules) -> bool {
        self.space == other.space
            && self.limits == other.limits
            && self.seed == other.seed
            && self.max_runs == other.max_runs
            && self.budget == other.budget
            && self.initial == other.initial
            && self.strength == other.strength
            && self.restart == other.restart
            && self.workers == other.workers
    }
}

impl Eq for Rules {
    ghost use Rattle.std.proofs.lemmas.Cmp.{and_equiv, on_equiv, lists_equiv, nat_eq_equiv};
    ghost use Rattle.param_space.specs.contracts.space.SpaceEq.TheImpl.Laws as space;
    ghost use Rattle.objective.specs.contracts.LimitsEq.TheImpl.Laws as limits;
    ghost use Rattle.ils_face.specs.Rules.{numbers_of};

    ghost laws = { and_equiv (on_equiv (λ r. r.space) space.laws-law)
        (and_equiv (on_equiv (λ r. r.limits) limits.laws-law) (on_equiv numbers_of (lists_equiv nat_eq_equiv))) };
}

impl Rules {
    /// The same rules.
    pub fn copy(&self) -> Result<Rules, Memory>
        ensures same { IfOk result (λ r. r ≡ self.now) }
        ensures ruled { AreRules self.now }
    {
        Ok(Rules {
            space: self.space.copy()?,
            seed: self.seed,
            max_runs: self.max_runs,
            budget: self.budget,
            initial: self.initial,
            strength: self.strength,
            restart: self.restart,
            limits: self.limits,
            workers: self.workers,
        })
    }
}
