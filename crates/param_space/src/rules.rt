//! The rules that the parameters of a space keep.
ghost use Rattle.std.specs.Prelude.{◌≡◌, IfOk, map, bytes_eq};
ghost use Rattle.std.specs.List.{list_any, list_all};
ghost use Rattle.plain_text.specs.Words;
ghost use Rattle.param_space.specs.Space.{names};
ghost use Rattle.param_space.specs.Faults;

use crate::limits::{MAX_PARAMS, MAX_VALUES};
use crate::lists::{Breach, Param, Part, SpaceWhat};
use objective::Memory;
use plain_text::{Text, is_word, texts_differ};
use std::alloc::Global;

/// Whether one of the parameters has this name.
fn has_name(params: &[Param], name: &str) -> bool
    ensures { result ≡ list_any (bytes_eq name.now) (names params.now) }
{
    for param in params {
        if name == param.name.as_str() {
            return true;
        }
    }
    false
}

/// Whether all the texts are words.
fn all_words(texts: &[Text]) -> bool
    ensures { result ≡ list_all Words.is_word texts.now }
{
    for text in texts {
        if !is_word(text.as_str()) {
            return false;
        }
    }
    true
}

/// The first rule that the parameter at this place breaks, after these parameters.
fn param_fault(
    alloc: Global,
    earlier: &[Param],
    place: usize,
    param: &Param,
) -> Result<Option<SpaceWhat>, Memory>
    ensures { IfOk result (λ what. what ≡ Faults.param_fault (names earlier.now) place param.now) }
{
    let values = param.values.as_slice();
    if place >= MAX_PARAMS || values.len() > MAX_VALUES {
        Ok(Some(SpaceWhat::TooMany))
    } else if !is_word(param.name.as_str()) || !all_words(values) {
        Ok(Some(SpaceWhat::BadWord))
    } else if has_name(earlier, param.name.as_str()) {
        Ok(Some(SpaceWhat::DoubleName))
    } else if values.is_empty() {
        Ok(Some(SpaceWhat::NoValues))
    } else if !texts_differ(alloc, values)? {
        Ok(Some(SpaceWhat::DoubleValue))
    } else if usize::from(param.default) >= values.len() {
        Ok(Some(SpaceWhat::BadDefault))
    } else {
        Ok(None)
    }
}

/// The first fault of the parameters.
pub fn params_fault(alloc: Global, params: &[Param]) -> Result<Option<Breach>, Memory>
    ensures { IfOk result (λ breach. breach ≡ Faults.params_fault params.now) }
{
    if params.is_empty() {
        return Ok(Some(Breach {
            part: Part::Whole,
            place: 0,
            what: SpaceWhat::NoParameters,
        }));
    }
    for (i, param) in params.iter().enumerate() {
        if let Some(what) = param_fault(alloc, &params[..i], i, param)? {
            return Ok(Some(Breach {
                part: Part::Param,
                place: i as u32,
                what,
            }));
        }
    }
    Ok(None)
}
