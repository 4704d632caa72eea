//! What is read off of a configuration in one look.
ghost use Rattle.std.specs.Prelude.{◌≡◌, ◌≤◌, length};
ghost use Rattle.run_cache.specs.Fronts;

use crate::known::Known;
use objective::Sum;

/// What is known of a configuration up to the front, its least place that isn't exact.
#[derive(Clone, Copy)]
pub struct Front<'a> {
    /// The sums of the costs of the places 1 to k, for each k before the front.
    pub sums: &'a [Sum],
    /// What is known at the front.
    pub known: Known,
}

/// What the first places cost, by the sums up to each.
pub fn spent_over(sums: &[Sum], places: usize) -> Sum
    requires { places ≤ length sums.now }
    ensures { result.0 ≡ Fronts.spent_over sums.now places }
{
    match places.checked_sub(1) {
        Some(before) => sums[before],
        None => Sum(0),
    }
}
