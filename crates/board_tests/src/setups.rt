//! Boards over rows of a table.
ghost use Rattle.std.specs.Prelude.{◌≡◌, ◌≤◌, IfOk, length};
ghost use Rattle.objective.specs.Limits.{max_runs};

use crate::grid::Grid;
use ils_face::{Rules, Search};
use instance_pairs::{Instance, Pairs};
use objective::{Factor, Limits, Memory, Micros};
use outside::TableSeat;
use param_space::Space;
use plain_text::Text;
use pool_core::{Board, Problem};
use scenario_files::PairOrder;
use std::alloc::Global;
use test_support::space_of;

/// What is tuned.
#[derive(Clone, Copy)]
pub(crate) struct Setup<'a> {
    /// The values of x, between braces.
    pub lines: &'a str,
    /// What children answer.
    pub letters: &'a str,
    /// The pairs of a comparison, up to 4.
    pub runs: u32,
    /// The comparisons, up to 100.
    pub budget: u32,
}

/// The space of these lines.
fn space(alloc: Global, lines: &str) -> Result<Space, Memory> {
    match space_of(alloc, lines) {
        Ok(space) => Ok(space),
        Err(_) => Err(Memory),
    }
}

/// An instance with these specifics, alone.
fn instances(alloc: Global, letters: &str) -> Result<Vec<Instance>, Memory>
    ensures { IfOk result (λ v. length v.items ≡ 1) }
{
    let mut instances = Vec::new(alloc);
    instances.push(Instance {
        name: Text::of(alloc, "one")?,
        specifics: Text::of(alloc, letters)?,
    })?;
    Ok(instances)
}

/// The pairs of an instance with these specifics.
fn pairs(alloc: Global, letters: &str, runs: u32) -> Result<Pairs, Memory> {
    let instances = instances(alloc, letters)?;
    let wanted = runs.clamp(1, 4);
    Pairs::new(alloc, instances, 1, false, PairOrder::File, wanted)
}

/// The rules of so many comparisons on so many pairs over this space, under a cutoff of ten
/// seconds; a run without a solution costs a hundred.
fn rules_over(space: Space, runs: u32, budget: u32, workers: u32) -> Rules
    requires one { 1 ≤ runs }
    requires most { runs ≤ max_runs }
    ensures { result.max_runs ≡ runs }
{
    let _ = space.params(); // its rules hold
    Rules {
        space,
        seed: 1,
        max_runs: runs,
        budget: budget.min(100),
        initial: 0,
        strength: 1,
        restart: 0,
        limits: Limits {
            cutoff: Micros(10_000_000),
            factor: Factor::Ten,
            floor: Micros(1),
        },
        workers: workers.clamp(1, 3),
    }
}

/// The problem of a setup for so many workers, up to 3.
pub(crate) fn problem(alloc: Global, setup: &Setup<'_>, workers: u32) -> Result<Problem, Memory> {
    let pairs = pairs(alloc, setup.letters, setup.runs)?;
    let space = space(alloc, setup.lines)?;
    let rules = rules_over(space, pairs.max_runs(), setup.budget, workers);
    Ok(Problem { rules, pairs })
}

/// A board over seats that answer by the letters.
pub(crate) type GridBoard<P> = Board<P, TableSeat<Grid>>;

/// The opening board of a setup for so many workers, up to 3.
pub(crate) fn open<P: Search>(
    alloc: Global,
    setup: &Setup<'_>,
    workers: u32,
) -> Result<GridBoard<P>, Memory> {
    Board::open(alloc, problem(alloc, setup, workers)?)
}

/// The opening board of a problem, which is copied.
pub(crate) fn open_copy<P: Search>(
    alloc: Global,
    problem: &Problem,
) -> Result<GridBoard<P>, Memory> {
    Board::open(alloc, problem.copy()?)
}
