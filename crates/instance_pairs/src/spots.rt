//! The instances and seeds of places, by number.
ghost use Rattle.std.specs.Prelude.{◌≡◌, ◌+◌, ◌*◌, ◌≤◌, OnOk, IfOk};
ghost use Rattle.scenario_files.specs.declared.draft.PairOrder.TheVariants;
ghost use Rattle.instance_pairs.specs.Limits.{max_instances};
ghost use Rattle.instance_pairs.specs.Pairs.{spots_to, AreSpots};

use objective::Memory;
use scenario_files::PairOrder;
use seeded_order::Draws;
use std::alloc::Global;

/// Seeds are below this number.
const SEEDS: u32 = 2_147_483_648;

/// The number of an instance, from 0, and a seed.
#[derive(Clone, Copy, Debug, PartialEq, Eq)]
pub(crate) struct Spot {
    pub instance: u32,
    pub seed: u32,
}

/// The spots of so many runs in file order.
fn file_spots(alloc: Global, seed: u32, count: u32, max_runs: u32) -> Result<Vec<Spot>, Memory>
    requires { 1 ≤ count }
    ensures { IfOk result (λ v. AreSpots TheVariants.File seed count max_runs v.items) }
{
    let mut spots = Vec::new(alloc);
    for earlier in 0..max_runs {
        spots.push(Spot {
            instance: earlier % count,
            seed: earlier + 1,
        })?;
    }
    Ok(spots)
}

/// Appends the spots of a round in shuffled order.
fn push_round(
    alloc: Global,
    draws: &Draws,
    round: u32,
    count: u32,
    spots: &mut Vec<Spot>,
) -> Result<(), Memory>
    requires few { count ≤ max_instances }
    requires before { spots.old.items ≡ spots_to TheVariants.Shuffled draws.now count (round * count) }
    ensures { OnOk result (spots.new.items ≡ spots_to TheVariants.Shuffled draws.now count ((round + 1) * count)) }
{
    let stream = 2 * u64::from(round) + 1;
    let order = draws.order(alloc, stream, count)?;
    for (position, number) in order.as_slice().iter().enumerate() {
        let word = draws.word(stream, count + position as u32);
        spots.push(Spot {
            instance: *number,
            seed: word % SEEDS,
        })?;
    }
    Ok(())
}

/// The spots of so many runs in shuffled order: of no more rounds than they need.
fn shuffled_spots(
    alloc: Global,
    draws: Draws,
    count: u32,
    max_runs: u32,
) -> Result<Vec<Spot>, Memory>
    requires some { 1 ≤ count }
    requires few { count ≤ max_instances }
    ensures { IfOk result (λ v. AreSpots TheVariants.Shuffled draws count max_runs v.items) }
{
    let mut spots = Vec::new(alloc);
    for round in 0..max_runs.div_ceil(count) {
        push_round(alloc, &draws, round, count, &mut spots)?;
    }
    Ok(spots)
}

/// The spots of so many runs over `count` instances.
pub(crate) fn spots_of(
    alloc: Global,
    order: PairOrder,
    seed: u32,
    count: u32,
    max_runs: u32,
) -> Result<Vec<Spot>, Memory>
    requires some { 1 ≤ count }
    requires few { count ≤ max_instances }
    ensures { IfOk result (λ v. AreSpots order seed count max_runs v.items) }
{
    match order {
        PairOrder::File => file_spots(alloc, seed, count, max_runs),
        PairOrder::Shuffled => shuffled_spots(alloc, Draws::new(seed), count, max_runs),
    }
}
