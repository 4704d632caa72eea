//! What words and files state.
ghost use Rattle.std.specs.Prelude.{◌≡◌, ◌≤◌};
ghost use Rattle.objective.specs.Limits.{max_workers};

use board_steps::Problem;
use scenario_files::Approach;
use wrapper_lines::Program;

/// A program, how its settings are compared, and the problem of the search for the best ones.
#[derive(Drop)]
pub struct Task {
    /// The program.
    pub program: Program,
    /// How configurations are compared.
    pub approach: Approach,
    /// The rules of the search, and the pairs that configurations are run on.
    pub problem: Problem,
}

impl Task {
    /// The seats that are asked for.
    pub fn workers(&self) -> u32
        ensures value { result ≡ self.now.problem.rules.workers }
        ensures some { 1 ≤ result }
        ensures few { result ≤ max_workers }
    {
        self.problem.rules.workers
    }
}
