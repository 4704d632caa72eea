//! What an event draws: neighbours in an order, a random step, a perturbation.
ghost use Rattle.std.specs.Prelude.{◌≡◌, ◌+◌, ◌<◌, ◌≤◌, ◌^◌, All, length, IfOk};
ghost use Rattle.param_space.specs.Configurations.{IsConfig};
ghost use Rattle.ils_face.specs.Setups;
ghost use Rattle.ils_face.specs.Setups.{configs_at, setup_of};
ghost use Rattle.ils_frame.specs.NextComparison;
ghost use Rattle.ils_frame.specs.NextComparison.{perturbation};

use ils_face::Rules;
use neighbourhood::neighbours;
use objective::Memory;
use param_space::Config;
use seeded_order::Draws;
use std::alloc::Global;

/// The stream of a search event.
pub(crate) fn stream_of(event: u64) -> u64
    requires { event < 2 ^ 61 }
    ensures value { result ≡ Setups.stream_of event }
    ensures known { result < 2 ^ 62 }
{
    2 * event
}

/// The configurations with these numbers.
fn picked(alloc: Global, configs: &[Config], numbers: &[u32]) -> Result<Vec<Config>, Memory>
    requires { All (λ i. i < length configs.now) numbers.now }
    ensures { IfOk result (λ picked. picked.items ≡ configs_at configs.now numbers.now) }
{
    let mut picked = Vec::with_capacity(alloc, numbers.len())?;
    for number in numbers {
        picked.push(configs[*number as usize].copy()?)?;
    }
    Ok(picked)
}

/// The neighbours of a configuration in the order that an event draws.
#[tactic(auto, unfolding(ils_face::specs::Setups::setup_of))]
pub(crate) fn neighbours_in_order(
    alloc: Global,
    rules: &Rules,
    config: &Config,
    event: u64,
) -> Result<Vec<Config>, Memory>
    requires config { IsConfig rules.now.space config.now }
    requires event { event < 2 ^ 61 }
    ensures { let setup = setup_of rules.now in
        IfOk result (λ around. around.items ≡ NextComparison.neighbours_in_order setup config.now event) }
{
    let found = neighbours(alloc, &rules.space, config)?;
    let count = found.len() as u32;
    let order = Draws::new(rules.seed).order(alloc, stream_of(event), count)?;
    picked(alloc, found.as_slice(), order.as_slice())
}

/// The neighbour of a configuration that an event draws, or the configuration itself where
/// it has none.
#[tactic(auto, unfolding(ils_face::specs::Setups::setup_of))]
fn random_step(alloc: Global, rules: &Rules, config: &Config, event: u64) -> Result<Config, Memory>
    requires config { IsConfig rules.now.space config.now }
    requires event { event < 2 ^ 61 }
    ensures { IfOk result (λ c. c ≡ NextComparison.random_step (setup_of rules.now) config.now event) }
{
    let found = neighbours(alloc, &rules.space, config)?;
    if found.is_empty() {
        return config.copy();
    }
    let number = Draws::new(rules.seed).one_of(stream_of(event), found.len() as u32);
    found[number as usize].copy()
}

/// A configuration after the random steps of a perturbation, each of which takes one event.
pub(crate) fn perturbed(
    alloc: Global,
    rules: &Rules,
    config: Config,
    event: u64,
) -> Result<Config, Memory>
    requires config { IsConfig rules.now.space config }
    requires event { event < 2 ^ 60 }
    ensures value { IfOk result (λ c. c ≡ (perturbation (setup_of rules.now) rules.now.strength config event).config) }
    ensures sound { IfOk result (λ c. IsConfig rules.now.space c) }
{
    let mut reached = config;
    for step in 0..rules.strength {
        reached = random_step(alloc, rules, &reached, event + u64::from(step))?;
    }
    Ok(reached)
}

/// The configuration that an event draws at random.
#[tactic(auto, unfolding(ils_face::specs::Setups::setup_of))]
pub(crate) fn random_config(alloc: Global, rules: &Rules, event: u64) -> Result<Config, Memory>
    requires { event < 2 ^ 61 }
    ensures value { IfOk result (λ c. c ≡ (setup_of rules.now).random event) }
    ensures sound { IfOk result (λ c. IsConfig rules.now.space c) }
{
    Draws::new(rules.seed).random_config(alloc, stream_of(event), &rules.space)
}

/// The coin of an event: whether the search restarts.
#[tactic(auto, unfolding(ils_face::specs::Setups::setup_of))]
pub(crate) fn restarts(rules: &Rules, event: u64) -> bool
    requires { event < 2 ^ 61 }
    ensures { result ≡ (setup_of rules.now).coin event }
{
    Draws::new(rules.seed).coin(stream_of(event), rules.restart)
}
