//! Names and values as numbers.
ghost use Rattle.std.specs.Prelude.{◌≡◌, ◌≤◌, ◌<◌, Ok, IfOk, IfSome, length, option_map, position, bytes_eq};
ghost use Rattle.std.specs.Option.{is_some};
ghost use Rattle.plain_text.specs.Faults.{in_line, FailsAs};
ghost use Rattle.param_space.specs.Limits;
ghost use Rattle.param_files.specs.Faults.{fault_of};
ghost use Rattle.param_files.specs.Reading;
ghost use Rattle.param_files.specs.Reading.{all_some, of_space, pick_numbered, condition_numbered, clause_numbered};
ghost use Rattle.param_files.specs.KeptStatements.{AreFew};

use crate::faults::{ParamFault, broken};
use crate::statements::NamedPick;
use objective::Memory;
use param_space::{Condition, Forbidden, Param, Pick, SpaceWhat};
use plain_text::{Items, Text};
use std::alloc::Global;

/// The place of the parameter with this name.
fn param_place(params: &[Param], name: &str) -> Option<usize>
    ensures value { result ≡ Reading.param_number params.now name.now }
    ensures within { IfSome result (λ p. p < length params.now) }
{
    params.iter().position(|p| p.name.as_str() == name)
}

/// The place of a value among these.
fn value_place(values: &[Text], value: &str) -> Option<usize>
    ensures value { result ≡ position (λ v. bytes_eq v value.now) values.now }
    ensures within { IfSome result (λ v. v < length values.now) }
{
    values.iter().position(|v| v.as_str() == value)
}

/// The number of the parameter with this name.
fn param_number(params: &[Param], name: &str) -> Option<u16>
    requires { length params.now ≤ Limits.max_params }
    ensures value { result ≡ Reading.param_number params.now name.now }
    ensures within { IfSome result (λ p. p < length params.now) }
{
    let place = param_place(params, name)?;
    Some(place as u16)
}

/// The number of a value of the parameter with this number.
fn value_number(params: &[Param], param: u16, value: &str) -> Option<u16>
    requires in_range { param < length params.now }
    requires few { AreFew params.now }
    ensures { result ≡ Reading.value_number params.now param value.now }
{
    let place = value_place(params[param as usize].values.as_slice(), value)?;
    Some(place as u16)
}

/// The numbers of values of a parameter. None where one of them has none.
fn value_numbers(
    alloc: Global,
    params: &[Param],
    param: u16,
    values: &[Text],
) -> Result<Option<Vec<u16>>, Memory>
    requires in_range { param < length params.now }
    requires few { AreFew params.now }
    ensures { let number = Reading.value_number params.now param in
        IfOk result (λ r. option_map (λ v. v.items) r ≡ all_some number values.now) }
{
    let mut numbers = Vec::new(alloc);
    for value in values {
        match value_number(params, param, value.as_str()) {
            Some(number) => numbers.push(number)?,
            None => return Ok(None),
        }
    }
    Ok(Some(numbers))
}

/// A condition by numbers. Fails with the first name or value that there isn't.
#[tactic(auto, unfolding(crate::specs::Reading::condition_numbered))]
pub(crate) fn numbered_condition(
    alloc: Global,
    params: &[Param],
    line: u32,
    child: &str,
    parent: &str,
    values: &[Text],
) -> Result<Condition, ParamFault>
    requires { AreFew params.now }
    ensures value { IfOk result (λ c. condition_numbered params.now child.now parent.now values.now ≡ Ok c) }
    ensures fault { let found = condition_numbered params.now child.now parent.now values.now in
        FailsAs fault_of result (in_line line (of_space found)) }
{
    let Some(child) = param_number(params, child) else {
        return Err(broken(line, SpaceWhat::UnknownName));
    };
    let Some(parent) = param_number(params, parent) else {
        return Err(broken(line, SpaceWhat::UnknownName));
    };
    let Some(numbers) = value_numbers(alloc, params, parent, values)? else {
        return Err(broken(line, SpaceWhat::UnknownValue));
    };
    Ok(Condition {
        child,
        parent,
        values: Items::new(numbers)?,
    })
}

/// Whether all names of the picks are names of parameters.
fn has_names(params: &[Param], picks: &[NamedPick]) -> bool
    requires { length params.now ≤ Limits.max_params }
    ensures { result ≡ is_some (all_some (λ k. Reading.param_number params.now k.name) picks.now) }
{
    for pick in picks {
        if param_number(params, pick.name.as_str()).is_none() {
            return false;
        }
    }
    true
}

/// A pick by numbers. None where there is no such name or value.
#[tactic(auto, unfolding(crate::specs::Reading::pick_numbered))]
fn pick_number(params: &[Param], pick: &NamedPick) -> Option<Pick>
    requires { AreFew params.now }
    ensures { result ≡ pick_numbered params.now pick.now }
{
    let param = param_number(params, pick.name.as_str())?;
    let value = value_number(params, param, pick.value.as_str())?;
    Some(Pick { param, value })
}

/// Picks by numbers. None where one of them has no such name or value.
fn pick_numbers(
    alloc: Global,
    params: &[Param],
    picks: &[NamedPick],
) -> Result<Option<Vec<Pick>>, Memory>
    requires { AreFew params.now }
    ensures { IfOk result (λ r. option_map (λ v. v.items) r ≡ all_some (pick_numbered params.now) picks.now) }
{
    let mut numbers = Vec::new(alloc);
    for pick in picks {
        match pick_number(params, pick) {
            Some(number) => numbers.push(number)?,
            None => return Ok(None),
        }
    }
    Ok(Some(numbers))
}

/// A clause by numbers. Fails with a name that there isn't, or else with a value.
#[tactic(auto, unfolding(crate::specs::Reading::clause_numbered))]
pub(crate) fn numbered_clause(
    alloc: Global,
    params: &[Param],
    line: u32,
    picks: &[NamedPick],
) -> Result<Forbidden, ParamFault>
    requires { AreFew params.now }
    ensures value { IfOk result (λ f. clause_numbered params.now picks.now ≡ Ok f) }
    ensures fault { FailsAs fault_of result (in_line line (of_space (clause_numbered params.now picks.now))) }
{
    if !has_names(params, picks) {
        return Err(broken(line, SpaceWhat::UnknownName));
    }
    match pick_numbers(alloc, params, picks)? {
        Some(numbers) => Ok(Forbidden {
            picks: Items::new(numbers)?,
        }),
        None => Err(broken(line, SpaceWhat::UnknownValue)),
    }
}
