//! What comparisons and searches are answered by hand with.
ghost use Rattle.std.specs.Prelude.{◌≡◌, ◌≤◌, IsTrue};
ghost use Rattle.ils_face.specs.Replies.{Fits};
ghost use Rattle.objective.specs.Limits.{max_runs};

use ils_face::{Ask, Reply, Rules};
use objective::{Factor, Limits, Micros};
use param_files::ParamFault;
use param_space::Space;
use std::alloc::Global;
use test_support::space_of;

/// The rules of one comparison on at most so many pairs over this space.
fn rules_over(space: Space, runs: u32) -> Rules
    requires one { 1 ≤ runs }
    requires most { runs ≤ max_runs }
{
    let _ = space.params(); // its rules hold
    Rules {
        space,
        seed: 1,
        max_runs: runs,
        budget: 1,
        initial: 0,
        strength: 1,
        restart: 0,
        limits: Limits {
            cutoff: Micros(10),
            factor: Factor::One,
            floor: Micros(1),
        },
        workers: 1,
    }
}

/// The rules of one comparison of the values a and b on two pairs.
pub(crate) fn rules_of_two(alloc: Global) -> Result<Rules, ParamFault> {
    Ok(rules_over(space_of(alloc, "x {a, b} [a]")?, 2))
}

/// The rules of one comparison of the values a and b on at most ten pairs.
pub(crate) fn rules_of_ten(alloc: Global) -> Result<Rules, ParamFault> {
    Ok(rules_over(space_of(alloc, "x {a, b} [a]")?, 10))
}

/// What has to be asked, and the reply to it.
#[derive(Clone, Copy)]
pub(crate) struct Answer {
    /// The value number of x.
    pub value: u16,
    /// The pairs.
    pub runs: u32,
    /// The bound, where there is one.
    pub bound: Option<u64>,
    pub reply: Reply,
}

/// Whether the reply fits the ask.
pub(crate) fn fits(ask: &Ask, reply: Reply) -> bool
    ensures { IsTrue result → Fits ask.now reply }
{
    match (ask, reply) {
        (Ask::Full { .. }, Reply::Exact(_)) | (Ask::Versus { .. }, Reply::Exceeds) => true,
        (Ask::Versus { bound, .. }, Reply::Exact(sum)) => sum.0 <= bound.0,
        _ => false,
    }
}

/// Whether this is asked.
pub(crate) fn is_asked(ask: &Ask, answer: &Answer) -> bool {
    match ask {
        Ask::Full { config, n } => {
            answer.bound.is_none()
                && *n == answer.runs
                && config.values() == [answer.value].as_slice()
        }
        Ask::Versus { config, n, bound } => {
            answer.bound == Some(bound.0)
                && *n == answer.runs
                && config.values() == [answer.value].as_slice()
        }
        Ask::End => false,
    }
}
