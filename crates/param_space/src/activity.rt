//! Which parameters are active in a configuration, and what it forbids.
ghost use Rattle.std.specs.Prelude.{suc, All, ◌≡◌, ◌<◌, ◌≤◌, length};
ghost use Rattle.std.specs.List.{list_any};
ghost use Rattle.param_space.specs.Configurations.{is_active_within};
ghost use Rattle.param_space.specs.Limits;
ghost use Rattle.param_space.specs.Ancestors.{IsNamed, IsAcyclic};
ghost use Rattle.param_space.specs.Marks.{AreMarksOf, is_met_by, is_marked_by, marked_clause_fault, ArePicksNamed};
ghost use Rattle.param_space.specs.Order.{IsOrder};

use crate::limits::MAX_PARAMS;
use crate::lists::{Breach, Condition, Forbidden, Part, SpaceWhat};
use crate::marks::Marks;

/// Whether the condition's parent is active and has a listed value.
fn is_met(condition: &Condition, values: &[u16], active: &Marks) -> bool
    requires value { condition.now.parent < length values.now }
    requires mark { condition.now.parent < length active.now }
    ensures { result ≡ is_met_by active.now values.now condition.now }
{
    let parent = usize::from(condition.parent);
    condition.values.as_slice().contains(&values[parent]) && active[parent]
}

/// Marks each active parameter of the configuration with these values. Goes through the
/// conditions once; the order sees to it that a parent's mark is right before it is used.
pub fn activity(conditions: &[Condition], order: &[u32], values: &[u16]) -> Marks
    requires order { IsOrder conditions.now order.now }
    requires named { All (IsNamed (length values.now)) conditions.now }
    requires acyclic { IsAcyclic (length values.now) conditions.now }
    requires few { length values.now ≤ Limits.max_params }
    ensures size { length result ≡ Limits.max_params }
    ensures value { AreMarksOf (is_active_within (suc (length values.now)) conditions.now values.now) result }
{
    let mut active = [true; MAX_PARAMS];
    for i in order {
        let condition = &conditions[*i as usize];
        if !is_met(condition, values, &active) {
            active[usize::from(condition.child)] = false;
        }
    }
    active
}

/// Whether each of the clause's picks is of an active parameter with this value.
fn forbids(clause: &Forbidden, values: &[u16], active: &Marks) -> bool
    requires named { ArePicksNamed (length values.now) clause.now }
    requires sizes { length values.now ≤ length active.now }
    ensures { result ≡ is_marked_by active.now values.now clause.now }
{
    for pick in clause.picks.as_slice() {
        let param = usize::from(pick.param);
        if !active[param] || values[param] != pick.value {
            return false;
        }
    }
    true
}

/// Whether some clause forbids a configuration with these values and marks.
pub fn forbids_any(forbidden: &[Forbidden], values: &[u16], active: &Marks) -> bool
    requires named { All (ArePicksNamed (length values.now)) forbidden.now }
    requires sizes { length values.now ≤ length active.now }
    ensures { result ≡ list_any (is_marked_by active.now values.now) forbidden.now }
{
    for clause in forbidden {
        if forbids(clause, values, active) {
            return true;
        }
    }
    false
}

/// The first clause that forbids the configuration of the defaults, which has these values
/// and marks.
pub fn forbidding_fault(forbidden: &[Forbidden], values: &[u16], active: &Marks) -> Option<Breach>
    requires few { length forbidden.now ≤ Limits.max_clauses }
    requires named { All (ArePicksNamed (length values.now)) forbidden.now }
    requires sizes { length values.now ≤ length active.now }
    ensures { result ≡ marked_clause_fault active.now values.now forbidden.now }
{
    for (i, clause) in forbidden.iter().enumerate() {
        if forbids(clause, values, active) {
            return Some(Breach {
                part: Part::Forbidden,
                place: i as u32,
                what: SpaceWhat::DefaultForbidden,
            });
        }
    }
    None
}
