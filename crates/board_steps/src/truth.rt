//! The outcome table of a problem.
ghost use Rattle.board_steps.specs.ProblemRuns.{table_of};

use crate::problem::Problem;
use objective::World;
use outside::Spawner;
use std::marker::PhantomData;

/// What the spawners of a type tell, as an outcome table of each problem. It serves
/// contracts alone, and no value of it is made.
pub struct Truth<S: Spawner> {
    of: PhantomData<S>,
}

impl<S: Spawner> World for Truth<S> {
    type Frame = Problem;

    ghost outcome = { table_of S.truth };
}
