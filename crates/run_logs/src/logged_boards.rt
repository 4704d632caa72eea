//! What holds of the runs that a board records.
ghost use Rattle.std.specs.Prelude.{◌≡◌, All, IfSome, IsSome, Some};
ghost use Rattle.run_cache.specs.Runs.{HasAbort, IsRising};
ghost use Rattle.board_steps.specs.AgreeingBoards.{IsShown};
ghost use Rattle.board_steps.specs.ProblemRuns.{table_of};
ghost use Rattle.run_logs.specs.LoggedCosts.{logged_sum};
ghost use Rattle.run_logs.specs.LoggedRuns.{logged_runs, runs_in, HaveOwnTickets};

use ils_face::Search;
use outside::Spawner;
use pool_core::Board;

/// What holds of the rows of each board's journal. They are rising and of different tickets; where
/// the truth is told, each shows what its cell's outcome does. The total cost of the incumbent's
/// runs is the sum of the rows' first exact costs, and a board that ended at an abort has its row.
pub fn is_logged<P: Search, S: Spawner>(board: &Board<P, S>)
    ensures rising { IsRising (runs_in (logged_runs board.now.journal)) }
    ensures tickets { HaveOwnTickets (logged_runs board.now.journal) }
    ensures shown { IsSome S.truth
        → All (IsShown (table_of S.truth board.now.problem)) (runs_in (logged_runs board.now.journal)) }
    ensures incumbent { let last = (P.shown board.now.problem.rules board.now.replies).last in
        let rows = logged_runs board.now.journal in
        logged_sum board.now.problem.rules.limits rows last.config last.runs ≡ Some last.sum }
    ensures abort { IfSome board.now.aborted (HasAbort (runs_in (logged_runs board.now.journal))) }
{
    board.is_board();
    let _ = board.search().ask(); // whose replies fit
}
