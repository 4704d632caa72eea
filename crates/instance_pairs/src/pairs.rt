//! The pairs that configurations are run on.
ghost use Rattle.std.specs.Prelude.{◌≡◌, ◌≤◌, ◌<◌, IfOk, length};
ghost use Rattle.objective.specs.Limits;
ghost use Rattle.instance_pairs.specs.Limits.{max_instances};
ghost use Rattle.instance_pairs.specs.Pairs.{max_runs_of, spot_at, pair_at};

use crate::instances::Instance;
use crate::spots::{Spot, spots_of};
use objective::Memory;
use plain_text::Items;
use scenario_files::PairOrder;
use std::alloc::Global;
use std::marker::Model;

/// An instance and the seed of a run on it.
#[derive(Clone, Copy, Debug, PartialEq, Eq)]
pub struct Pair<'a> {
    /// The instance's name.
    pub instance: &'a str,
    /// Its specifics.
    pub specifics: &'a str,
    /// The seed.
    pub seed: u32,
}

/// The pairs of a tuning. Contracts see what they are made of. Their type keeps that there
/// are 1 to [`MAX_INSTANCES`](crate::MAX_INSTANCES) instances and 1 to
/// [`MAX_RUNS`](objective::MAX_RUNS) runs.
#[derive(Drop)]
pub struct Pairs {
    instances: Items<Instance>,
    seed: u32,
    deterministic: bool,
    order: PairOrder,
    max_runs: u32,
    spots: Items<Spot>,
}

impl Model for Pairs {
    ghost use Rattle.std.specs.Prelude.{length};
    ghost use Rattle.instance_pairs.specs.Pairs.{Plan, ArePairsInRange, AreSpots};

    ghost Value = { Plan };

    ghost view = { λ p. record {
      instances = p.instances;
      seed = p.seed;
      deterministic = p.deterministic;
      order = p.order;
      max_runs = p.max_runs;
    } };

    ghost invariant = { λ p. ArePairsInRange (length p.instances) p.max_runs
        × AreSpots p.order p.seed (length p.instances) p.max_runs p.spots };
}

impl PartialEq for Pairs {
    ghost use Rattle.std.specs.Prelude.{nat_eq};
    ghost use Rattle.std.specs.Cmp.{partial_equiv_from_equiv};
    ghost use Rattle.std.specs.Cmp.Lexicographic.{pointwise};
    ghost use Rattle.std.specs.Cmp.Rules.{comparing};
    ghost use Rattle.std.specs.Ordering.{on, eq_of_both};
    ghost use Rattle.std.proofs.Common.{rules};
    ghost use Rattle.std.proofs.lemmas.Cmp.{and_equiv, on_equiv, lists_equiv};
    ghost use Rattle.instance_pairs.specs.contracts.instances.InstanceEq.TheImpl.Laws as instance;

    ghost eq = { eq_of_both
        (on (λ p. p.instances) (pointwise ⟦<Instance as PartialEq>⟧.eq))
        (eq_of_both
        (on (λ p. p.seed) nat_eq)
        (eq_of_both
        (on (λ p. p.deterministic) ⟦<bool as PartialEq>⟧.eq)
        (eq_of_both (on (λ p. p.order) ⟦<PairOrder as PartialEq>⟧.eq) (on (λ p. p.max_runs) nat_eq)))) };

    ghost laws = { partial_equiv_from_equiv (and_equiv
        (on_equiv (λ p. p.instances) (lists_equiv instance.laws-law))
        (Prim.search (comparing, rules))) };

    fn eq(&self, other: &Pairs) -> bool {
        self.instances == other.instances
            && self.seed == other.seed
            && self.deterministic == other.deterministic
            && self.order == other.order
            && self.max_runs == other.max_runs
    }
}

impl Eq for Pairs {
    ghost use Rattle.std.specs.Cmp.Rules.{comparing};
    ghost use Rattle.std.proofs.Common.{rules};
    ghost use Rattle.std.proofs.lemmas.Cmp.{and_equiv, on_equiv, lists_equiv};
    ghost use Rattle.instance_pairs.specs.contracts.instances.InstanceEq.TheImpl.Laws as instance;

    ghost laws = { and_equiv
        (on_equiv (λ p. p.instances) (lists_equiv instance.laws-law))
        (Prim.search (comparing, rules)) };
}

/// How many runs a configuration may have at most.
fn max_runs_for(deterministic: bool, count: u32, wanted: u32) -> u32
    ensures { result ≡ max_runs_of deterministic count wanted }
{
    if deterministic {
        wanted.min(count)
    } else {
        wanted
    }
}

impl Pairs {
    /// The pairs over these instances, in file order or shuffled anew in each round by the
    /// draws of this seed. Deterministic runs have the seed 0, and no instance comes twice.
    pub fn new(
        alloc: Global,
        instances: Vec<Instance>,
        seed: u32,
        deterministic: bool,
        order: PairOrder,
        wanted: u32,
    ) -> Result<Pairs, Memory>
        requires some { 1 ≤ length instances.items }
        requires few { length instances.items ≤ max_instances }
        requires one { 1 ≤ wanted }
        requires most { wanted ≤ Limits.max_runs }
        ensures { IfOk result (λ p. p ≡ record {
          instances = instances.items;
          seed = seed;
          deterministic = deterministic;
          order = order;
          max_runs = max_runs_of deterministic (length instances.items) wanted;
        }) }
    {
        let count = instances.len() as u32;
        let max_runs = max_runs_for(deterministic, count, wanted);
        let spots = spots_of(alloc, order, seed, count, max_runs)?;
        Ok(Pairs {
            instances: Items::new(instances)?,
            seed,
            deterministic,
            order,
            max_runs,
            spots: Items::new(spots)?,
        })
    }

    /// How many runs a configuration has at most: as many as are wanted, but where they are
    /// deterministic no more than there are instances.
    pub fn max_runs(&self) -> u32
        ensures value { result ≡ self.now.max_runs }
        ensures one { 1 ≤ result }
        ensures most { result ≤ Limits.max_runs }
    {
        self.max_runs
    }

    /// The number of a place's instance, and its seed.
    fn spot(&self, place: u32) -> Spot
        requires first { 1 ≤ place }
        requires last { place ≤ self.now.max_runs }
        ensures value { result ≡ spot_at self.now.order self.now.seed (length self.now.instances) place }
        ensures some { 1 ≤ length self.now.instances }
        ensures below { result.instance < length self.now.instances }
    {
        self.spots.as_slice()[place as usize - 1]
    }

    /// The pair of a place, from 1. Takes no memory.
    pub fn pair(&self, place: u32) -> Pair<'_>
        requires first { 1 ≤ place }
        requires last { place ≤ self.now.max_runs }
        ensures instance { result.instance.now ≡ (pair_at self.now place).instance.name }
        ensures specifics { result.specifics.now ≡ (pair_at self.now place).instance.specifics }
        ensures seed { result.seed ≡ (pair_at self.now place).seed }
    {
        let spot = self.spot(place);
        let instance = &self.instances.as_slice()[spot.instance as usize];
        Pair {
            instance: instance.name.as_str(),
            specifics: instance.specifics.as_str(),
            seed: if self.deterministic { 0 } else { spot.seed },
        }
    }

    /// The instance of a place, from 1. Takes no memory.
    pub fn instance(&self, place: u32) -> &Instance
        requires first { 1 ≤ place }
        requires last { place ≤ self.now.max_runs }
        ensures { result.now ≡ (pair_at self.now place).instance }
    {
        let spot = self.spot(place);
        &self.instances.as_slice()[spot.instance as usize]
    }

    /// The same pairs, shared. Takes no memory.
    pub fn copy(&self) -> Result<Pairs, Memory>
        ensures { IfOk result (λ p. p ≡ self.now) }
    {
        Ok(Pairs {
            instances: self.instances.copy()?,
            seed: self.seed,
            deterministic: self.deterministic,
            order: self.order,
            max_runs: self.max_runs,
            spots: self.spots.copy()?,
        })
    }
}
