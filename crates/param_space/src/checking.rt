//! Whether lists make a space.
ghost use Rattle.std.specs.Prelude.{◌≡◌, ◌≤◌, None, All, length, IfOk, IfErr, OnOk};
ghost use Rattle.param_space.specs.Limits;
ghost use Rattle.param_space.specs.Space.{space_lists};
ghost use Rattle.param_space.specs.Ancestors.{IsNamed, IsAcyclic, AreRanks};
ghost use Rattle.param_space.specs.Faults;
ghost use Rattle.param_space.specs.Faults.{whole_fault, space_fault, IsBreach, AreFaultless, IsSpace};
ghost use Rattle.param_space.specs.Marks.{ArePicksNamed};
ghost use Rattle.param_space.specs.Order.{IsOrder};

use crate::activity::{activity, forbidding_fault};
use crate::ancestry::{ancestry_of, cycle_fault, ranked_order};
use crate::limits::MAX_PARAMS;
use crate::lists::{Breach, Condition, Forbidden, Param, SpaceFault};
use crate::relations::{clauses_fault, conditions_fault};
use crate::rules::params_fault;
use objective::Memory;
use std::alloc::Global;

/// The first fault of the lists, each by itself.
fn lists_fault(
    alloc: Global,
    params: &[Param],
    conditions: &[Condition],
    forbidden: &[Forbidden],
) -> Result<Option<Breach>, Memory>
    ensures { IfOk result (λ b. b ≡ Faults.lists_fault (space_lists params.now conditions.now forbidden.now)) }
{
    if let Some(breach) = params_fault(alloc, params)? {
        return Ok(Some(breach));
    }
    match conditions_fault(params, conditions) {
        Some(breach) => Ok(Some(breach)),
        None => Ok(clauses_fault(params, forbidden)),
    }
}

/// The first clause that forbids the defaults.
fn default_fault(
    alloc: Global,
    params: &[Param],
    conditions: &[Condition],
    order: &[u32],
    forbidden: &[Forbidden],
) -> Result<Option<Breach>, Memory>
    requires few { (length params.now ≤ Limits.max_params) × (length forbidden.now ≤ Limits.max_clauses) }
    requires named { All (IsNamed (length params.now)) conditions.now }
    requires picks_named { All (ArePicksNamed (length params.now)) forbidden.now }
    requires acyclic { IsAcyclic (length params.now) conditions.now }
    requires order { IsOrder conditions.now order.now }
    ensures { IfOk result (λ b. b ≡ Faults.default_fault (space_lists params.now conditions.now forbidden.now)) }
{
    let values: Vec<u16> = params.iter().map(|param| param.default).collect(alloc)?;
    let active = activity(conditions, order, values.as_slice());
    Ok(forbidding_fault(forbidden, values.as_slice(), &active))
}

/// An order of the conditions by these ranks, where no clause forbids the defaults; else the
/// first one that does.
fn allowed_order(
    alloc: Global,
    params: &[Param],
    conditions: &[Condition],
    forbidden: &[Forbidden],
    ranks: &[u32; MAX_PARAMS],
) -> Result<Vec<u32>, SpaceFault>
    requires faultless { AreFaultless (space_lists params.now conditions.now forbidden.now) }
    requires acyclic { IsAcyclic (length params.now) conditions.now }
    requires size { length ranks.now ≡ Limits.max_params }
    requires ranked { AreRanks (length params.now) conditions.now ranks.now }
    ensures order { IfOk result (λ v. IsOrder conditions.now v.items) }
    ensures allowed { OnOk result (Faults.default_fault (space_lists params.now conditions.now forbidden.now) ≡ None) }
    ensures fault { let lists = space_lists params.now conditions.now forbidden.now in
        IfErr result (λ e. IsBreach e (Faults.default_fault lists)) }
{
    let order = ranked_order(alloc, conditions, ranks)?;
    match default_fault(alloc, params, conditions, order.as_slice(), forbidden)? {
        Some(breach) => Err(breach.fault()),
        None => Ok(order),
    }
}

/// An order of the conditions of lists of which each by itself has no fault, or the first
/// fault of the space as a whole.
fn whole_order(
    alloc: Global,
    params: &[Param],
    conditions: &[Condition],
    forbidden: &[Forbidden],
) -> Result<Vec<u32>, SpaceFault>
    requires { AreFaultless (space_lists params.now conditions.now forbidden.now) }
    ensures order { IfOk result (λ v. IsOrder conditions.now v.items) }
    ensures space { OnOk result (IsSpace (space_lists params.now conditions.now forbidden.now)) }
    ensures fault { let lists = space_lists params.now conditions.now forbidden.now in
        IfErr result (λ e. IsBreach e (whole_fault lists)) }
{
    let found = ancestry_of(conditions, params.len());
    match cycle_fault(conditions, &found.own) {
        Some(breach) => Err(breach.fault()),
        None => allowed_order(alloc, params, conditions, forbidden, &found.ranks),
    }
}

/// An order of the conditions of lists that make a space, or the lists' first fault.
pub fn checked_order(
    alloc: Global,
    params: &[Param],
    conditions: &[Condition],
    forbidden: &[Forbidden],
) -> Result<Vec<u32>, SpaceFault>
    ensures order { IfOk result (λ v. IsOrder conditions.now v.items) }
    ensures space { OnOk result (IsSpace (space_lists params.now conditions.now forbidden.now)) }
    ensures fault { let lists = space_lists params.now conditions.now forbidden.now in
        IfErr result (λ e. IsBreach e (space_fault lists)) }
{
    match lists_fault(alloc, params, conditions, forbidden)? {
        Some(breach) => Err(breach.fault()),
        None => whole_order(alloc, params, conditions, forbidden),
    }
}
