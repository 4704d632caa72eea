//! The forms of a line, over its tokens.
ghost use Rattle.std.specs.Prelude.{◌≡◌, ◌&&◌, ◌≤◌, IfOk, IfSome, length, map, option_map, drop, bytes_eq, codes};
ghost use Rattle.std.specs.Option.{option_copied};
ghost use Rattle.param_files.specs.Grammar;

use crate::statements::{NamedPick, Statement};
use objective::Memory;
use plain_text::{Items, Text, is_word};
use std::alloc::Global;

/// Values that are listed, and how many tokens they take with the closing brace.
#[derive(Drop)]
struct ValueList {
    values: Vec<Text>,
    taken: usize,
}

/// Picks that are listed, and how many tokens they take with the closing brace.
#[derive(Drop)]
struct PickList {
    picks: Vec<NamedPick>,
    taken: usize,
}

/// Whether the token is a heading, in any ASCII case.
fn is_heading(token: &str) -> bool
    ensures { result ≡ Grammar.is_heading token.now }
{
    token.eq_ignore_ascii_case("Conditionals:") || token.eq_ignore_ascii_case("Forbidden:")
}

/// Whether there are no tokens, or a heading alone.
fn is_nothing(tokens: &[&str]) -> bool
    ensures { result ≡ Grammar.is_nothing (map (λ t. t.now) tokens.now) }
{
    match tokens {
        [] => true,
        [token] => is_heading(token),
        _ => false,
    }
}

/// One or more values parted by commas, and a closing brace. None exactly where the tokens
/// begin otherwise.
fn value_list(alloc: Global, tokens: &[&str]) -> Result<Option<ValueList>, Memory>
    ensures within { IfOk result (λ r. IfSome r (λ l. l.taken ≤ length tokens.now)) }
    ensures value { let texts = map (λ t. t.now) tokens.now in
        IfOk result (λ r. option_map (λ l. (l.values.items, drop l.taken texts)) r ≡ Grammar.value_list texts) }
{
    let mut values = Vec::new(alloc);
    let mut taken = 0;
    while let [value, mark, ..] = &tokens[taken..] {
        if !is_word(value) {
            return Ok(None);
        }
        values.push(Text::of(alloc, value)?)?;
        taken += 2;
        match *mark {
            "}" => return Ok(Some(ValueList { values, taken })),
            "," => {}
            _ => return Ok(None),
        }
    }
    Ok(None)
}

/// Whether the tokens are `name=value`.
fn is_pick(name: &str, equals: &str, value: &str) -> bool
    ensures { result ≡ Grammar.is_pick name.now equals.now value.now }
{
    is_word(name) && equals == "=" && is_word(value)
}

/// One or more picks parted by commas, and a closing brace. None exactly where the tokens
/// begin otherwise.
fn pick_list(alloc: Global, tokens: &[&str]) -> Result<Option<PickList>, Memory>
    ensures within { IfOk result (λ r. IfSome r (λ l. l.taken ≤ length tokens.now)) }
    ensures value { let texts = map (λ t. t.now) tokens.now in
        IfOk result (λ r. option_map (λ l. (l.picks.items, drop l.taken texts)) r ≡ Grammar.pick_list texts) }
{
    let mut picks = Vec::new(alloc);
    let mut taken = 0;
    while let [name, equals, value, mark, ..] = &tokens[taken..] {
        if !is_pick(name, equals, value) {
            return Ok(None);
        }
        picks.push(NamedPick {
            name: Text::of(alloc, name)?,
            value: Text::of(alloc, value)?,
        })?;
        taken += 4;
        match *mark {
            "}" => return Ok(Some(PickList { picks, taken })),
            "," => {}
            _ => return Ok(None),
        }
    }
    Ok(None)
}

/// A forbidden clause. None exactly where the tokens are none.
#[tactic(auto, unfolding(crate::specs::Grammar::clause_of))]
fn clause_of(alloc: Global, tokens: &[&str]) -> Result<Option<Statement>, Memory>
    ensures { IfOk result (λ s. s ≡ Grammar.clause_of (map (λ t. t.now) tokens.now)) }
{
    let [brace, rest @ ..] = tokens else {
        return Ok(None);
    };
    if *brace != "{" {
        return Ok(None);
    }
    let Some(list) = pick_list(alloc, rest)? else {
        return Ok(None);
    };
    match &rest[list.taken..] {
        [] => Ok(Some(Statement::Clause {
            picks: Items::new(list.picks)?,
        })),
        [_, ..] => Ok(None),
    }
}

/// Whether the tokens are `child | parent in {`.
fn is_condition_head(child: &str, bar: &str, parent: &str, word: &str, brace: &str) -> bool
    ensures { result ≡ Grammar.is_condition_head child.now bar.now parent.now word.now brace.now }
{
    is_word(child) && bar == "|" && is_word(parent) && word == "in" && brace == "{"
}

/// A condition. None exactly where the tokens are none.
#[tactic(auto, unfolding(crate::specs::Grammar::condition_of))]
fn condition_of(alloc: Global, tokens: &[&str]) -> Result<Option<Statement>, Memory>
    ensures { IfOk result (λ s. s ≡ Grammar.condition_of (map (λ t. t.now) tokens.now)) }
{
    let [child, bar, parent, word, brace, rest @ ..] = tokens else {
        return Ok(None);
    };
    if !is_condition_head(child, bar, parent, word, brace) {
        return Ok(None);
    }
    let Some(list) = value_list(alloc, rest)? else {
        return Ok(None);
    };
    match &rest[list.taken..] {
        [] => Ok(Some(Statement::Condition {
            child: Text::of(alloc, child)?,
            parent: Text::of(alloc, parent)?,
            values: Items::new(list.values)?,
        })),
        [_, ..] => Ok(None),
    }
}

/// Whether the tokens are `[default]`.
fn is_default(left: &str, default: &str, right: &str) -> bool
    ensures { result ≡ Grammar.is_default left.now default.now right.now }
{
    left == "[" && is_word(default) && right == "]"
}

/// The default in `[default]`. None exactly where the tokens are anything else.
fn default_of<'a>(tokens: &[&'a str]) -> Option<&'a str>
    ensures { option_copied result ≡ Grammar.default_of (map (λ t. t.now) tokens.now) }
{
    let [left, default, right] = tokens else {
        return None;
    };
    if !is_default(left, default, right) {
        return None;
    }
    Some(default)
}

/// A parameter. None exactly where the tokens are none.
#[tactic(auto, unfolding(crate::specs::Grammar::parameter_of))]
fn parameter_of(alloc: Global, tokens: &[&str]) -> Result<Option<Statement>, Memory>
    ensures { IfOk result (λ s. s ≡ Grammar.parameter_of (map (λ t. t.now) tokens.now)) }
{
    let [name, brace, rest @ ..] = tokens else {
        return Ok(None);
    };
    if !is_word(name) || *brace != "{" {
        return Ok(None);
    }
    let Some(list) = value_list(alloc, rest)? else {
        return Ok(None);
    };
    let Some(default) = default_of(&rest[list.taken..]) else {
        return Ok(None);
    };
    Ok(Some(Statement::Parameter {
        name: Text::of(alloc, name)?,
        values: Items::new(list.values)?,
        default: Text::of(alloc, default)?,
    }))
}

/// What a line with these tokens states. None exactly where it has none of the forms.
#[tactic(auto, unfolding(crate::specs::Grammar::statement_of))]
pub(crate) fn statement_of(alloc: Global, tokens: &[&str]) -> Result<Option<Statement>, Memory>
    ensures { IfOk result (λ s. s ≡ Grammar.statement_of (map (λ t. t.now) tokens.now)) }
{
    if is_nothing(tokens) {
        return Ok(Some(Statement::Nothing));
    }
    if let Some(clause) = clause_of(alloc, tokens)? {
        return Ok(Some(clause));
    }
    if let Some(condition) = condition_of(alloc, tokens)? {
        return Ok(Some(condition));
    }
    parameter_of(alloc, tokens)
}
