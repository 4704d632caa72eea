//! A space as the text of a parameter file.
ghost use Rattle.std.specs.Prelude.{◌≡◌, ◌≤◌, ◌++◌, [], Ok, IfOk, OnOk, OnErr, string_bytes, slice_index_or, length, codes};
ghost use Rattle.plain_text.specs.Limits.{max_bytes};
ghost use Rattle.param_space.specs.Faults.{IsSpace};
ghost use Rattle.param_files.specs.Reading.{params_read};
ghost use Rattle.param_files.specs.PrintedLines;

use objective::Memory;
use param_space::{Condition, Forbidden, Param, Pick, Space};
use plain_text::Text;
use std::alloc::Global;

/// The text with this number; an empty one where there is none.
fn text_at(texts: &[Text], number: u16) -> &str
    ensures { result.now ≡ slice_index_or texts.now number [] }
{
    match texts.get(usize::from(number)) {
        Some(text) => text.as_str(),
        None => "",
    }
}

/// The name of the parameter with this number; an empty one where there is none.
fn name_at(params: &[Param], number: u16) -> &str
    ensures { result.now ≡ PrintedLines.param_name params.now number }
{
    match params.get(usize::from(number)) {
        Some(param) => param.name.as_str(),
        None => "",
    }
}

/// The value of a parameter by the numbers of both; an empty one where there is none.
fn value_at(params: &[Param], number: u16, value: u16) -> &str
    ensures { result.now ≡ PrintedLines.value_of params.now number value }
{
    match params.get(usize::from(number)) {
        Some(param) => text_at(param.values.as_slice(), value),
        None => "",
    }
}

/// The texts parted by a comma and a space.
fn parted(alloc: Global, texts: &[Text]) -> Result<String, Memory>
    ensures { IfOk result (λ t. string_bytes t ≡ PrintedLines.with_commas texts.now) }
{
    let mut listed = Vec::new(alloc);
    for text in texts {
        listed.push(text.as_str())?;
    }
    Ok(listed.join(alloc, ", ")?)
}

/// `name {v1, v2} [default]`.
fn param_line(alloc: Global, param: &Param) -> Result<String, Memory>
    ensures { IfOk result (λ t. string_bytes t ≡ PrintedLines.param_line param.now ++ codes "\n") }
{
    let name = param.name.as_str();
    let values = parted(alloc, param.values.as_slice())?;
    let default = text_at(param.values.as_slice(), param.default);
    Ok(format!(in alloc; "{name} {{{values}}} [{default}]\n")?)
}

/// The values of a parameter with these numbers, parted by a comma and a space.
fn parted_values(
    alloc: Global,
    params: &[Param],
    number: u16,
    values: &[u16],
) -> Result<String, Memory>
    ensures { IfOk result (λ t. string_bytes t ≡ PrintedLines.values_text params.now number values.now) }
{
    let mut chosen = Vec::new(alloc);
    for value in values {
        chosen.push(value_at(params, number, *value))?;
    }
    Ok(chosen.join(alloc, ", ")?)
}

/// `child | parent in {v1, v2}`.
fn condition_line(alloc: Global, params: &[Param], condition: &Condition) -> Result<String, Memory>
    ensures { IfOk result (λ t. string_bytes t ≡ PrintedLines.condition_line params.now condition.now ++ codes "\n") }
{
    let child = name_at(params, condition.child);
    let parent = name_at(params, condition.parent);
    let values = parted_values(alloc, params, condition.parent, condition.values.as_slice())?;
    Ok(format!(in alloc; "{child} | {parent} in {{{values}}}\n")?)
}

/// `name=value`.
fn pick_text(alloc: Global, params: &[Param], pick: &Pick) -> Result<String, Memory>
    ensures { IfOk result (λ t. string_bytes t ≡ PrintedLines.pick_text params.now pick.now) }
{
    let name = name_at(params, pick.param);
    let value = value_at(params, pick.param, pick.value);
    Ok(format!(in alloc; "{name}={value}")?)
}

/// The picks parted by a comma and a space.
fn parted_picks(alloc: Global, params: &[Param], picks: &[Pick]) -> Result<String, Memory>
    ensures { IfOk result (λ t. string_bytes t ≡ PrintedLines.picks_text params.now picks.now) }
{
    let mut pairs = Vec::new(alloc);
    for pick in picks {
        pairs.push(pick_text(alloc, params, pick)?)?;
    }
    Ok(pairs.join(alloc, ", ")?)
}

/// `{name=value, name=value}`.
fn clause_line(alloc: Global, params: &[Param], clause: &Forbidden) -> Result<String, Memory>
    ensures { IfOk result (λ t. string_bytes t ≡ PrintedLines.clause_line params.now clause.now ++ codes "\n") }
{
    let picks = parted_picks(alloc, params, clause.picks.as_slice())?;
    Ok(format!(in alloc; "{{{picks}}}\n")?)
}

/// Appends the lines of the parameters; some of them where there is no memory left.
fn push_params(alloc: Global, text: &mut String, params: &[Param]) -> Result<(), Memory>
    ensures { OnOk result (string_bytes text.new ≡ string_bytes text.old ++ PrintedLines.params_text params.now) }
{
    for param in params {
        text.push_str(param_line(alloc, param)?.as_str())?;
    }
    Ok(())
}

/// Appends the lines of the conditions; some of them where there is no memory left.
fn push_conditions(
    alloc: Global,
    text: &mut String,
    params: &[Param],
    conditions: &[Condition],
) -> Result<(), Memory>
    ensures { let lines = PrintedLines.conditions_text params.now conditions.now in
        OnOk result (string_bytes text.new ≡ string_bytes text.old ++ lines) }
{
    for condition in conditions {
        text.push_str(condition_line(alloc, params, condition)?.as_str())?;
    }
    Ok(())
}

/// Appends the lines of the clauses; some of them where there is no memory left.
fn push_clauses(
    alloc: Global,
    text: &mut String,
    params: &[Param],
    clauses: &[Forbidden],
) -> Result<(), Memory>
    ensures { let lines = PrintedLines.clauses_text params.now clauses.now in
        OnOk result (string_bytes text.new ≡ string_bytes text.old ++ lines) }
{
    for clause in clauses {
        text.push_str(clause_line(alloc, params, clause)?.as_str())?;
    }
    Ok(())
}

/// The lines of a space.
fn space_text(alloc: Global, space: &Space) -> Result<String, Memory>
    ensures value { IfOk result (λ t. string_bytes t ≡ PrintedLines.space_text space.now) }
    ensures sound { IsSpace space.now }
{
    let params = space.params();
    let mut text = String::new(alloc);
    push_params(alloc, &mut text, params)?;
    push_conditions(alloc, &mut text, params, space.conditions())?;
    push_clauses(alloc, &mut text, params, space.forbidden())?;
    Ok(text)
}

/// Appends the text of a space: its parameters, its conditions and its clauses, each on a
/// line. A text of at most 2^24 bytes is read back as the space. After want of memory `out`
/// is as it was.
pub fn print_params(space: &Space, out: &mut Vec<u8>) -> Result<(), Memory>
    ensures ok { OnOk result (out.new.items ≡ out.old.items ++ PrintedLines.space_text space.now) }
    ensures err { OnErr result (out.new.items ≡ out.old.items) }
    ensures reads_back { let text = PrintedLines.space_text space.now in
        OnOk result (length text ≤ max_bytes → params_read text ≡ Ok space.now) }
{
    let text = space_text(*out.allocator(), space)?;
    out.extend_from_slice(text.as_str().as_bytes())?;
    Ok(())
}
