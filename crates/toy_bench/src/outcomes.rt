//! What the runs of a toy come to.
ghost use Rattle.std.specs.Prelude.{◌≡◌, IfOk, string_bytes};
ghost use Rattle.param_space.specs.Settings;
ghost use Rattle.toy_bench.specs.Outcomes;

use crate::hashing::hash;
use objective::{Memory, Micros, Outcome};
use std::alloc::Global;
use wrapper_lines::{Key, Setting};

/// After so many milliseconds a run is solved at the latest, or never.
const LONGEST: u64 = 5_000;

/// What a key's run does.
#[derive(Clone, Copy)]
pub(crate) struct Course {
    /// What it does with all the time that it wants.
    pub(crate) outcome: Outcome,
    /// How often its child is looked at before it has ended.
    pub(crate) looks: u64,
}

/// `name=value`.
fn setting_text(alloc: Global, setting: &Setting) -> Result<String, Memory>
    ensures { IfOk result (λ t. string_bytes t ≡ Settings.setting_text (setting.now.name, setting.now.value)) }
{
    let (name, value) = (setting.name.as_str(), setting.value.as_str());
    Ok(format!(in alloc; "{name}={value}")?)
}

/// Settings as they are printed.
fn printed(alloc: Global, settings: &[Setting]) -> Result<String, Memory>
    ensures { IfOk result (λ t. string_bytes t ≡ Outcomes.printed settings.now) }
{
    let mut texts = Vec::new(alloc);
    for setting in settings {
        texts.push(setting_text(alloc, setting)?)?;
    }
    Ok(texts.join(alloc, " ")?)
}

/// A key whose settings are printed so: the instance, its specifics, the seed and the settings,
/// parted by one space.
fn key_text(alloc: Global, key: &Key, settings: &str) -> Result<String, Memory>
    requires { settings.now ≡ Outcomes.printed key.now.settings }
    ensures { IfOk result (λ t. string_bytes t ≡ Outcomes.key_text key.now) }
{
    let (instance, specifics) = (key.instance.as_str(), key.specifics.as_str());
    let seed = key.seed;
    Ok(format!(in alloc; "{instance} {specifics} {seed} {settings}")?)
}

/// What a run does that takes so many milliseconds.
fn outcome_after(milliseconds: u64) -> Outcome
    ensures { result ≡ Outcomes.outcome_after milliseconds }
{
    if milliseconds <= LONGEST {
        Outcome::Solved(Micros(milliseconds * 1000))
    } else {
        Outcome::Unsolved
    }
}

/// What a key's run does.
pub(crate) fn course_of(alloc: Global, key: &Key) -> Result<Course, Memory>
    ensures outcome { IfOk result (λ c. c.outcome ≡ Outcomes.toy_outcome key.now) }
    ensures looks { IfOk result (λ c. c.looks ≡ Outcomes.toy_looks key.now) }
{
    let settings = printed(alloc, key.settings.as_slice())?;
    let text = key_text(alloc, key, settings.as_str())?;
    let of_settings = hash(settings.as_str().as_bytes());
    let of_key = hash(text.as_str().as_bytes());
    Ok(Course {
        outcome: outcome_after(of_settings % 4000 + of_key % 2000),
        looks: of_key % 4,
    })
}
