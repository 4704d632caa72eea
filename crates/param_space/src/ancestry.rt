//! Which parameters depend on which, and an order of conditions in which a parameter's own
//! stand before those of the parameters that depend on it.
ghost use Rattle.std.specs.Prelude.{ℕ, All, ◌≡◌, ◌<◌, ◌≤◌, false, length, slice_index, slice_index_or, IfOk};
ghost use Rattle.param_space.specs.Limits;
ghost use Rattle.param_space.specs.Ancestors;
ghost use Rattle.param_space.specs.Ancestors.{IsNamed, AreRanks, is_ancestor_within, is_own_ancestor};
ghost use Rattle.param_space.specs.Marks.{AreMarksOf, is_parent_of, marked_child_fault};
ghost use Rattle.param_space.specs.Order.{IsOrder};

use crate::limits::MAX_PARAMS;
use crate::lists::{Breach, Condition, Part, SpaceWhat};
use crate::marks::Marks;
use objective::Memory;
use std::alloc::Global;

/// The parents of the parameter and of the ancestors that are known.
fn next_generation(conditions: &[Condition], param: u16, known: &Marks) -> Marks
    requires named { All (IsNamed Limits.max_params) conditions.now }
    requires size { length known.now ≡ Limits.max_params }
    ensures size { length result ≡ Limits.max_params }
    ensures value { AreMarksOf (is_parent_of conditions.now param known.now) result }
{
    let mut next = [false; MAX_PARAMS];
    for condition in conditions {
        let child = condition.child;
        next[usize::from(condition.parent)] |= child == param || known[usize::from(child)];
    }
    next
}

/// The ancestors of the parameter, among so many.
fn ancestors(conditions: &[Condition], count: usize, param: u16) -> Marks
    requires { All (IsNamed Limits.max_params) conditions.now }
    ensures size { length result ≡ Limits.max_params }
    ensures value { AreMarksOf (is_ancestor_within count conditions.now param) result }
{
    let mut known = [false; MAX_PARAMS];
    for _generation in 0..count {
        known = next_generation(conditions, param, &known);
    }
    known
}

/// How many of the first marks are set.
fn count_marks(marks: &Marks, count: usize) -> u32
    requires { count ≤ length marks.now }
    ensures { result ≡ Ancestors.count (λ a. slice_index_or marks.now a false) count }
{
    let mut found = 0;
    for mark in &marks[..count] {
        if *mark {
            found += 1;
        }
    }
    found
}

/// How many ancestors each parameter has, and whether it is one of them itself.
#[derive(Drop)]
pub struct Ancestry {
    pub ranks: [u32; MAX_PARAMS],
    pub own: Marks,
}

/// The ancestry of each of so many parameters.
pub fn ancestry_of(conditions: &[Condition], count: usize) -> Ancestry
    requires named { All (IsNamed count) conditions.now }
    requires few { count ≤ Limits.max_params }
    ensures sizes { (length result.ranks ≡ Limits.max_params) × (length result.own ≡ Limits.max_params) }
    ensures ranks { AreRanks count conditions.now result.ranks }
    ensures own { (p : ℕ) → p < count → slice_index_or result.own p false ≡ is_own_ancestor count conditions.now p }
{
    let mut ranks = [0; MAX_PARAMS];
    let mut own = [false; MAX_PARAMS];
    for param in 0..count {
        let marks = ancestors(conditions, count, param as u16);
        ranks[param] = count_marks(&marks, count);
        own[param] = marks[param];
    }
    Ancestry { ranks, own }
}

/// The numbers of the conditions by the rank of their child.
pub fn ranked_order(
    alloc: Global,
    conditions: &[Condition],
    ranks: &[u32; MAX_PARAMS],
) -> Result<Vec<u32>, Memory>
    requires few { length conditions.now ≤ Limits.max_conditions }
    requires named { All (IsNamed Limits.max_params) conditions.now }
    requires sizes { length ranks.now ≡ Limits.max_params }
    requires rises { All (λ c. slice_index ranks.now c.parent < slice_index ranks.now c.child) conditions.now }
    ensures { IfOk result (λ v. IsOrder conditions.now v.items) }
{
    let mut ranked = Vec::new(alloc);
    for (i, condition) in conditions.iter().enumerate() {
        ranked.push((ranks[usize::from(condition.child)], i as u32))?;
    }
    ranked.sort()?;
    Ok(ranked.iter().map(|pair| pair.1).collect(alloc)?)
}

/// The first condition whose child is its own ancestor.
pub fn cycle_fault(conditions: &[Condition], own: &Marks) -> Option<Breach>
    requires few { length conditions.now ≤ Limits.max_conditions }
    requires named { All (IsNamed Limits.max_params) conditions.now }
    requires size { length own.now ≡ Limits.max_params }
    ensures { result ≡ marked_child_fault own.now conditions.now }
{
    for (i, condition) in conditions.iter().enumerate() {
        if own[usize::from(condition.child)] {
            return Some(Breach {
                part: Part::Condition,
                place: i as u32,
                what: SpaceWhat::Cycle,
            });
        }
    }
    None
}
