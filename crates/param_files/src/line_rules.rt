//! The rules that a line keeps after the lines before it.
ghost use Rattle.std.specs.Prelude.{◌≡◌, ◌≤◌, IfOk, None, length, map, bytes_eq};
ghost use Rattle.std.specs.List.{list_any};
ghost use Rattle.plain_text.specs.Texts;
ghost use Rattle.param_space.specs.Faults.{first_broken};
ghost use Rattle.param_space.specs.Limits;
ghost use Rattle.param_files.specs.Reading.{parameter_line_rules, condition_line_rules, clause_line_rules};

use crate::statements::NamedPick;
use objective::Memory;
use param_space::{
    MAX_CLAUSES, MAX_CONDITIONS, MAX_PARAMS, MAX_PICKS, MAX_VALUES, Param, SpaceWhat,
};
use plain_text::{Text, has_text, texts_differ};
use std::alloc::Global;

/// Whether one of the parameters has this name.
fn has_param(params: &[Param], name: &str) -> bool
    ensures { result ≡ list_any (λ p. bytes_eq name.now p.name) params.now }
{
    params.iter().any(|p| name == p.name.as_str())
}

/// Whether one of the picks has this name.
fn has_pick(picks: &[NamedPick], name: &str) -> bool
    ensures { result ≡ list_any (λ k. bytes_eq name.now k.name) picks.now }
{
    picks.iter().any(|k| name == k.name.as_str())
}

/// Whether no two of the picks have the same name.
fn names_differ(picks: &[NamedPick]) -> bool
    ensures { result ≡ Texts.texts_differ (map (λ k. k.name) picks.now) }
{
    for (i, pick) in picks.iter().enumerate() {
        if has_pick(&picks[i + 1..], pick.name.as_str()) {
            return false;
        }
    }
    true
}

/// The first rule that a parameter breaks, after these.
pub(crate) fn param_fault(
    alloc: Global,
    params: &[Param],
    name: &str,
    values: &[Text],
    default: &str,
) -> Result<Option<SpaceWhat>, Memory>
    ensures value { let rules = parameter_line_rules params.now name.now values.now default.now in
        IfOk result (λ r. r ≡ first_broken rules) }
    ensures few { IfOk result (λ r. r ≡ None → length values.now ≤ Limits.max_values) }
{
    if params.len() >= MAX_PARAMS || values.len() > MAX_VALUES {
        return Ok(Some(SpaceWhat::TooMany));
    }
    if has_param(params, name) {
        return Ok(Some(SpaceWhat::DoubleName));
    }
    if !texts_differ(alloc, values)? {
        return Ok(Some(SpaceWhat::DoubleValue));
    }
    if !has_text(values, default) {
        return Ok(Some(SpaceWhat::BadDefault));
    }
    Ok(None)
}

/// The first rule that a condition with these values breaks, after so many conditions.
pub(crate) fn condition_fault(
    alloc: Global,
    conditions: usize,
    values: &[Text],
) -> Result<Option<SpaceWhat>, Memory>
    ensures value { IfOk result (λ r. r ≡ first_broken (condition_line_rules conditions values.now)) }
    ensures few { IfOk result (λ r. r ≡ None → conditions ≤ Limits.max_conditions) }
{
    if conditions >= MAX_CONDITIONS {
        return Ok(Some(SpaceWhat::TooMany));
    }
    if !texts_differ(alloc, values)? {
        return Ok(Some(SpaceWhat::DoubleValue));
    }
    Ok(None)
}

/// The first rule that a clause breaks, after so many clauses.
pub(crate) fn clause_fault(clauses: usize, picks: &[NamedPick]) -> Option<SpaceWhat>
    ensures value { result ≡ first_broken (clause_line_rules clauses picks.now) }
    ensures few { result ≡ None → clauses ≤ Limits.max_clauses }
{
    if clauses >= MAX_CLAUSES || picks.len() > MAX_PICKS {
        return Some(SpaceWhat::TooMany);
    }
    if !names_differ(picks) {
        return Some(SpaceWhat::DoubleName);
    }
    None
}
