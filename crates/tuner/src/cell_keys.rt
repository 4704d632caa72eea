//! Whether a key is that of a cell. Takes no memory.
ghost use Rattle.std.specs.Prelude.{◌≡◌, ◌≤◌, ◌==◌, ◌&&◌, ◌↔◌, IsTrue, Some, bytes_eq, map, slice_get};
ghost use Rattle.param_space.specs.Settings.{active_values};
ghost use Rattle.param_space.specs.Space.{Belongs};
ghost use Rattle.instance_pairs.specs.Pairs.{pair_at};
ghost use Rattle.board_steps.specs.ProblemRuns.{key_of, setting_from};

use board_steps::Problem;
use instance_pairs::Pairs;
use param_space::{Config, Space};
use plain_text::Text;
use run_cache::Cell;
use wrapper_lines::{Key, Setting};

/// Whether a setting gives this parameter this value.
fn gives(setting: &Setting, name: &Text, value: &Text) -> bool
    ensures { result ≡ (bytes_eq setting.now.name name.now && bytes_eq setting.now.value value.now) }
{
    setting.name == *name && setting.value == *value
}

/// Whether the setting with this number gives this parameter this value.
fn gives_at(settings: &[Setting], number: usize, name: &Text, value: &Text) -> bool
    ensures { IsTrue result ↔ (slice_get settings.now number ≡ Some (setting_from (name.now, value.now))) }
{
    if number < settings.len() {
        return gives(&settings[number], name, value);
    }
    false
}

/// Whether these are the settings of a configuration.
fn are_settings_of(settings: &[Setting], space: &Space, config: &Config) -> bool
    requires { Belongs space.now.params config.now }
    ensures { IsTrue result ↔ (settings.now ≡ map setting_from (active_values space.now config.now)) }
{
    let params = space.params();
    let values = config.values();
    let mut count = 0;
    for (i, param) in params.iter().enumerate() {
        if space.is_active(config, i as u16) {
            let value = &param.values.as_slice()[usize::from(values[i])];
            if !gives_at(settings, count, &param.name, value) {
                return false;
            }
            count += 1;
        }
    }
    count == settings.len()
}

/// Whether a key is of the pair of a place.
fn is_of_pair(key: &Key, pairs: &Pairs, place: u32) -> bool
    requires first { 1 ≤ place }
    requires last { place ≤ pairs.now.max_runs }
    ensures { let pair = pair_at pairs.now place in
        result ≡ (bytes_eq key.now.instance pair.instance.name
        && (bytes_eq key.now.specifics pair.instance.specifics && (key.now.seed == pair.seed))) }
{
    let pair = pairs.pair(place);
    key.instance.as_str() == pair.instance
        && key.specifics.as_str() == pair.specifics
        && key.seed == pair.seed
}

/// Whether this is the key of a cell's run.
pub(crate) fn is_key_of(key: &Key, problem: &Problem, cell: &Cell) -> bool
    requires belongs { Belongs problem.now.rules.space.params cell.now.config }
    requires first { 1 ≤ cell.now.place }
    requires last { cell.now.place ≤ problem.now.rules.max_runs }
    ensures { IsTrue result ↔ (key.now ≡ key_of problem.now cell.now) }
{
    if !is_of_pair(key, &problem.pairs, cell.place) {
        return false;
    }
    are_settings_of(key.settings.as_slice(), &problem.rules.space, &cell.config)
}
