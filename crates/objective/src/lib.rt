//! Times and costs of runs: what a run shows under a cutoff, and what it costs.
//!
//! All times and costs are whole microseconds. The cost is the penalised running
//! time of Hutter, Hoos, Leyton-Brown and Stützle, "ParamILS: An Automatic Algorithm
//! Configuration Framework", JAIR 36 (2009).
#![tactic(auto)]

ghost use Rattle.std.specs.Prelude.{◌≡◌, ◌+◌, ◌*◌, ◌≤◌, ◌↔◌, IsTrue, option_map, nat_le};
ghost use Rattle.objective.specs.Limits.{max_cutoff, max_sum};
ghost use Rattle.objective.specs.Costs;

use std::alloc::{AllocError, AllocFailed};
use std::marker::Model;

/// The greatest cutoff, in microseconds: 1,000,000 seconds.
pub const MAX_CUTOFF: u64 = 1_000_000_000_000;

/// The greatest sum of costs: that of [`MAX_RUNS`] runs, each of which costs a thousand of
/// the greatest cutoffs.
pub const MAX_SUM: u64 = 10_000_000_000_000_000_000;

/// The most pairs of a comparison, the key `N`.
pub const MAX_RUNS: u32 = 10_000;

/// The most comparisons of a tuning.
pub const MAX_COMPARISONS: u32 = 100_000;

/// The most random configurations that the default is compared with at first.
pub const MAX_INITIAL: u32 = 1_000;

/// The most random steps of a perturbation.
pub const MAX_STRENGTH: u32 = 100;

/// A restart after each turn, in ten-thousandths.
pub const MAX_RESTART: u16 = 10_000;

/// The most seats that work on a tuning.
pub const MAX_WORKERS: u32 = 64;

/// There is no memory left. Every call that allocates may answer so.
#[derive(Clone, Copy, Debug, PartialEq, Eq)]
pub struct Memory;

impl From<AllocError> for Memory {
    fn from(_e: AllocError) -> Memory {
        Memory
    }
}

impl<T: Drop> From<AllocFailed<T>> for Memory {
    fn from(_e: AllocFailed<T>) -> Memory {
        Memory
    }
}

/// A time in microseconds.
#[derive(Clone, Copy, Debug, PartialEq, Eq)]
pub struct Micros(pub u64);

/// A sum of costs in microseconds.
#[derive(Clone, Copy, Debug, PartialEq, Eq)]
pub struct Sum(pub u64);

/// What one run does with all the time that it wants.
#[derive(Clone, Copy, Debug, PartialEq, Eq)]
pub enum Outcome {
    /// Solved after this time.
    Solved(Micros),
    /// Never solved.
    Unsolved,
    /// Crashed after this time.
    Crashed(Micros),
    /// Asked for the end of the tuning after this time.
    Abort(Micros),
}

/// What a run shows under a cutoff.
#[derive(Clone, Copy, Debug, PartialEq, Eq)]
pub enum Answer {
    /// Solved after this time.
    Solved(Micros),
    /// Not ended within the cutoff.
    Timeout,
    /// Crashed.
    Crashed,
    /// Asked for the end of the tuning.
    Abort,
}

/// How many full cutoffs a run without a solution costs.
#[derive(Clone, Copy, Debug, PartialEq, Eq)]
pub enum Factor {
    /// The cutoff itself.
    One,
    /// Ten cutoffs.
    Ten,
    /// A thousand cutoffs.
    Thousand,
}

/// What bounds and prices a run. Its type keeps 1 <= floor <= cutoff <= 10^12 microseconds.
#[derive(Clone, Copy, Debug)]
pub struct Limits {
    /// The full cutoff: no run is given more time.
    pub cutoff: Micros,
    /// What an unsolved run costs, in cutoffs.
    pub factor: Factor,
    /// No cutoff is shortened below this time.
    pub floor: Micros,
}

impl Model for Limits {
    ghost use Rattle.objective.specs.Bounds.{Bounds, AreInRange};

    ghost Value = { Bounds };

    ghost view = { λ l. record { cutoff = l.cutoff.0; factor = l.factor; floor = l.floor.0 } };

    ghost invariant = { λ l. AreInRange l.cutoff.0 l.floor.0 };

    ghost inverse = { λ b. record {
      cutoff = record { 0 = b.cutoff };
      factor = b.factor;
      floor = record { 0 = b.floor };
    } };
}

impl PartialEq for Limits {
    ghost use Rattle.std.specs.Prelude.{nat_eq};
    ghost use Rattle.std.specs.Cmp.Rules.{comparing};
    ghost use Rattle.std.specs.Ordering.{on, eq_of_both};
    ghost use Rattle.std.proofs.Common.{rules};

    ghost eq = { eq_of_both
        (on (λ l. l.cutoff) nat_eq)
        (eq_of_both (on (λ l. l.factor) ⟦<Factor as PartialEq>⟧.eq) (on (λ l. l.floor) nat_eq)) };

    ghost laws = { Prim.search (comparing, rules) };

    fn eq(&self, other: &Limits) -> bool {
        self.cutoff == other.cutoff && self.factor == other.factor && self.floor == other.floor
    }
}

impl Eq for Limits {
    ghost use Rattle.std.specs.Cmp.Rules.{comparing};
    ghost use Rattle.std.proofs.Common.{rules};

    ghost laws = { Prim.search (comparing, rules) };
}

/// What a run with this outcome shows under a cutoff.
pub fn seen(outcome: Outcome, cutoff: Micros) -> Answer
    ensures { result ≡ Costs.seen outcome cutoff.0 }
{
    match outcome {
        Outcome::Solved(t) if t.0 <= cutoff.0 => Answer::Solved(t),
        Outcome::Crashed(t) if t.0 <= cutoff.0 => Answer::Crashed,
        Outcome::Abort(t) if t.0 <= cutoff.0 => Answer::Abort,
        _ => Answer::Timeout,
    }
}

/// The outcome, where one that takes longer than the full cutoff counts as unsolved.
pub fn within(outcome: Outcome, limits: &Limits) -> Outcome
    ensures { result ≡ Costs.within outcome limits.now }
{
    match outcome {
        Outcome::Solved(t) | Outcome::Crashed(t) | Outcome::Abort(t) => {
            if t.0 <= limits.cutoff.0 {
                outcome
            } else {
                Outcome::Unsolved
            }
        }
        Outcome::Unsolved => Outcome::Unsolved,
    }
}

/// What a run without a solution costs: the full cutoff times the factor.
pub fn penalty(limits: &Limits) -> Sum
    ensures value { result.0 ≡ Costs.penalty limits.now }
    ensures bound { result.0 ≤ 1000 * max_cutoff }
{
    match limits.factor {
        Factor::One => Sum(limits.cutoff.0),
        Factor::Ten => Sum(limits.cutoff.0 * 10),
        Factor::Thousand => Sum(limits.cutoff.0 * 1000),
    }
}

/// The cost of an outcome within the limits. None exactly for an abort.
pub fn cost(outcome: Outcome, limits: &Limits) -> Option<Sum>
    ensures { option_map (λ s. s.0) result ≡ Costs.cost_of limits.now outcome }
{
    match within(outcome, limits) {
        Outcome::Solved(t) => Some(Sum(t.0)),
        Outcome::Unsolved | Outcome::Crashed(_) => Some(penalty(limits)),
        Outcome::Abort(_) => None,
    }
}

/// The sum of the two. The greatest sum of a tuning is 10^19, which a u64 holds.
pub fn add(sum: Sum, cost: Sum) -> Sum
    requires { sum.0 + cost.0 ≤ max_sum }
    ensures { result.0 ≡ sum.0 + cost.0 }
{
    Sum(sum.0 + cost.0)
}

/// Whether the first sum is at most the second.
pub fn at_most(left: Sum, right: Sum) -> bool
    ensures { IsTrue result ↔ (left.0 ≤ right.0) }
{
    left.0 <= right.0
}

/// The cutoff for what is left of a bound: the lesser of the full cutoff and the greater
/// of floor and `rem` (trajectory-preserving capping; the floor is this project's own).
pub fn cap(limits: &Limits, rem: Sum) -> Micros
    ensures { result.0 ≡ Costs.cap limits.now rem.0 }
{
    Micros(limits.cutoff.0.min(limits.floor.0.max(rem.0)))
}

/// Something that has one outcome for each frame, configuration and place. It serves
/// contracts alone.
pub trait World {
    /// Plain data that fixes the table.
    type Frame;

    /// The table of a frame.
    ghost outcome: { Self.Frame → Costs.Table };
}
