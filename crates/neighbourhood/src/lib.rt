//! The one-exchange neighbourhood of a configuration: each active parameter in turn is
//! given each of its other values.
#![tactic(auto)]

ghost use Rattle.std.specs.Prelude.{All, ◌≡◌, ◌*◌, ◌<◌, ◌≤◌, ◌++◌, ◌∷◌, [], IfOk, OnOk, length};
ghost use Rattle.std.specs.List.{filter};
ghost use Rattle.param_space.specs.Space.{Belongs, value_count};
ghost use Rattle.param_space.specs.Limits;
ghost use Rattle.param_space.specs.Faults.{IsSpace};
ghost use Rattle.param_space.specs.Configurations.{is_allowed, IsConfig};
ghost use Rattle.neighbourhood.specs.Neighbours.{exchange_of, exchanges, neighbours_of};

use objective::Memory;
use param_space::{Config, Space};
use std::alloc::Global;

/// How many parameters the space has.
fn param_count(space: &Space) -> u16
    ensures value { result ≡ length space.now.params }
    ensures space { IsSpace space.now }
{
    space.params().len() as u16
}

/// How many values the parameter has.
fn param_value_count(space: &Space, param: u16) -> u16
    requires { param < length space.now.params }
    ensures { result ≡ value_count space.now.params param }
{
    space.params()[param as usize].values.as_slice().len() as u16
}

/// Appends the configuration with this value of the parameter, settled, where it is
/// allowed.
fn push_exchange(
    space: &Space,
    config: &Config,
    param: u16,
    value: u16,
    found: &mut Vec<Config>,
) -> Result<(), Memory>
    requires belongs { Belongs space.now.params config.now }
    requires param_in_range { param < length space.now.params }
    requires value_in_range { value < value_count space.now.params param }
    ensures { let exchange = exchange_of space.now config.now param value in
        OnOk result (found.new.items ≡ found.old.items ++ filter (is_allowed space.now) (exchange ∷ [])) }
{
    let mut neighbour = config.copy()?;
    neighbour.set(param, value);
    space.settle(&mut neighbour);
    if space.is_allowed(&neighbour) {
        found.push(neighbour)?;
    }
    Ok(())
}

/// Appends the allowed configurations with another value of the parameter, by value
/// number.
fn push_exchanges(
    space: &Space,
    config: &Config,
    param: u16,
    found: &mut Vec<Config>,
) -> Result<(), Memory>
    requires belongs { Belongs space.now.params config.now }
    requires in_range { param < length space.now.params }
    ensures { let allowed = filter (is_allowed space.now) (exchanges space.now config.now param) in
        OnOk result (found.new.items ≡ found.old.items ++ allowed) }
{
    let present = config.values()[param as usize];
    for value in 0..param_value_count(space, param) {
        if value != present {
            push_exchange(space, config, param, value, found)?;
        }
    }
    Ok(())
}

/// The neighbours of a configuration: the allowed configurations that come from giving one
/// active parameter another value and putting each parameter that is inactive then at its
/// default; by parameter and then by value number. The one error is want of memory.
pub fn neighbours(alloc: Global, space: &Space, config: &Config) -> Result<Vec<Config>, Memory>
    requires { Belongs space.now.params config.now }
    ensures value { IfOk result (λ v. v.items ≡ neighbours_of space.now config.now) }
    ensures sound { IfOk result (λ v. All (IsConfig space.now) v.items) }
    ensures few { IfOk result (λ v. length v.items ≤ Limits.max_params * Limits.max_values) }
{
    let mut found = Vec::new(alloc);
    for param in 0..param_count(space) {
        if space.is_active(config, param) {
            push_exchanges(space, config, param, &mut found)?;
        }
    }
    Ok(found)
}
