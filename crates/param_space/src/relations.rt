//! The rules that the conditions and the forbidden clauses of a space keep, each by itself.
ghost use Rattle.std.specs.Prelude.{◌≡◌, ◌==◌, map, nat_lt, length};
ghost use Rattle.std.specs.List.{list_any, list_all};
ghost use Rattle.param_space.specs.Space.{value_count};
ghost use Rattle.param_space.specs.Faults;

use crate::limits::{MAX_CLAUSES, MAX_CONDITIONS, MAX_PICKS};
use crate::lists::{Breach, Condition, Forbidden, Param, Part, Pick, SpaceWhat};

/// Whether no two of the numbers are equal.
fn numbers_differ(numbers: &[u16]) -> bool
    ensures { result ≡ Faults.numbers_differ numbers.now }
{
    for (i, number) in numbers.iter().enumerate() {
        if numbers[i + 1..].contains(number) {
            return false;
        }
    }
    true
}

/// Whether there is a parameter with this number, and it has a value with that one.
fn has_value(params: &[Param], param: u16, value: u16) -> bool
    ensures { result ≡ nat_lt value (value_count params.now param) }
{
    match params.get(usize::from(param)) {
        Some(found) => usize::from(value) < found.values.as_slice().len(),
        None => false,
    }
}

/// Whether the parameter has values with all these numbers.
fn has_values(params: &[Param], param: u16, values: &[u16]) -> bool
    ensures { result ≡ list_all (λ v. nat_lt v (value_count params.now param)) values.now }
{
    for value in values {
        if !has_value(params, param, *value) {
            return false;
        }
    }
    true
}

/// The first rule that the condition at this place breaks.
fn condition_fault(params: &[Param], place: usize, condition: &Condition) -> Option<SpaceWhat>
    ensures { result ≡ Faults.condition_fault params.now place condition.now }
{
    let values = condition.values.as_slice();
    let (child, parent) = (usize::from(condition.child), usize::from(condition.parent));
    if place >= MAX_CONDITIONS {
        Some(SpaceWhat::TooMany)
    } else if values.is_empty() {
        Some(SpaceWhat::NoValues)
    } else if !numbers_differ(values) {
        Some(SpaceWhat::DoubleValue)
    } else if child >= params.len() || parent >= params.len() {
        Some(SpaceWhat::UnknownName)
    } else if !has_values(params, condition.parent, values) {
        Some(SpaceWhat::UnknownValue)
    } else {
        None
    }
}

/// The first fault of the conditions.
pub fn conditions_fault(params: &[Param], conditions: &[Condition]) -> Option<Breach>
    ensures { result ≡ Faults.conditions_fault params.now conditions.now }
{
    for (i, condition) in conditions.iter().enumerate() {
        if let Some(what) = condition_fault(params, i, condition) {
            return Some(Breach {
                part: Part::Condition,
                place: i as u32,
                what,
            });
        }
    }
    None
}

/// Whether one of the picks is of this parameter.
fn has_param(picks: &[Pick], param: u16) -> bool
    ensures { result ≡ list_any (λ p. param == p) (map (λ k. k.param) picks.now) }
{
    for pick in picks {
        if param == pick.param {
            return true;
        }
    }
    false
}

/// Whether no two of the picks are of one parameter.
fn params_differ(picks: &[Pick]) -> bool
    ensures { result ≡ Faults.numbers_differ (map (λ k. k.param) picks.now) }
{
    for (i, pick) in picks.iter().enumerate() {
        if has_param(&picks[i + 1..], pick.param) {
            return false;
        }
    }
    true
}

/// Whether all picks are of parameters among so many.
fn are_named(picks: &[Pick], count: usize) -> bool
    ensures { result ≡ list_all (λ k. nat_lt k.param count) picks.now }
{
    for pick in picks {
        if usize::from(pick.param) >= count {
            return false;
        }
    }
    true
}

/// Whether all picks are of values that their parameters have.
fn are_values(params: &[Param], picks: &[Pick]) -> bool
    ensures { result ≡ list_all (λ k. nat_lt k.value (value_count params.now k.param)) picks.now }
{
    for pick in picks {
        if !has_value(params, pick.param, pick.value) {
            return false;
        }
    }
    true
}

/// The first rule that the forbidden clause at this place breaks.
fn clause_fault(params: &[Param], place: usize, clause: &Forbidden) -> Option<SpaceWhat>
    ensures { result ≡ Faults.clause_fault params.now place clause.now }
{
    let picks = clause.picks.as_slice();
    if place >= MAX_CLAUSES || picks.len() > MAX_PICKS {
        Some(SpaceWhat::TooMany)
    } else if picks.is_empty() {
        Some(SpaceWhat::NoValues)
    } else if !params_differ(picks) {
        Some(SpaceWhat::DoubleName)
    } else if !are_named(picks, params.len()) {
        Some(SpaceWhat::UnknownName)
    } else if !are_values(params, picks) {
        Some(SpaceWhat::UnknownValue)
    } else {
        None
    }
}

/// The first fault of the forbidden clauses.
pub fn clauses_fault(params: &[Param], forbidden: &[Forbidden]) -> Option<Breach>
    ensures { result ≡ Faults.clauses_fault params.now forbidden.now }
{
    for (i, clause) in forbidden.iter().enumerate() {
        if let Some(what) = clause_fault(params, i, clause) {
            return Some(Breach {
                part: Part::Forbidden,
                place: i as u32,
                what,
            });
        }
    }
    None
}
