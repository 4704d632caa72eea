//! How a board that was driven is printed.
ghost use Rattle.std.specs.Prelude.{◌≡◌, ℕ, IsTrue, List, IfOk};
ghost use Rattle.param_space.specs.Space.{Belongs};
ghost use Rattle.ils_face.specs.Steady.{IsAsk};
ghost use Rattle.pool_run.specs.Drives.{is_over};
ghost use Rattle.tuner.specs.Calls.{Call};
ghost use Rattle.tuner.specs.CallStarts.{StartsOf};
ghost use Rattle.tune_front.specs.RefusalLines;
ghost use Rattle.tuning_logs.specs.EntryLines.{all_lines};
ghost use Rattle.tuner.specs.Lines;
ghost use Rattle.tune_front.specs.SaidTexts.{Reported};
ghost use Rattle.tuner.specs.Conducted.{Conducted, Runs};
ghost use Rattle.tuner.specs.AnyAnswers.{EndsAs, may_end_any_call};
ghost use Rattle.tuner.specs.ReadyToDrive.{IsBoardOf, KeepsFault};
ghost use Rattle.tuner.specs.SearchEnds.{IsSearched};
ghost use Rattle.tuner.specs.KeptFaults.{IsTakenIn};

use crate::lines::{end_line, lines_with, run_line};
use board_steps::{Problem, Ticket};
use ils_face::{Ask, Search};
use objective::Memory;
use outside::{Sink, Spawner};
use pool_core::{Board, Ending};
use run_cache::Cell;
use std::alloc::Global;
use tune_front::{Status, Task, no_memory_line, say_all, say_no_memory};

/// Prints the incumbents of a search so far, and then this line of a call that is to end so.
fn report<P: Search, O: Sink>(
    alloc: Global,
    problem: &Problem,
    search: &P,
    line: Result<Vec<u8>, Memory>,
    end: Status,
    out: &mut O,
) -> Status
    requires { P.rules_of search.now ≡ problem.now.rules }
    ensures { let entries = (P.shown problem.now.rules (P.replies_of search.now)).entries in
        (text : List ℕ) → IfOk line (λ l. l.items ≡ text)
        → let lines = Lines.lines_with problem.now.rules.space entries text in
        Reported (O.told out.old) (O.told out.new) result end lines }
{
    let entries = search.entries();
    let Ok(line) = line else {
        return say_no_memory(out);
    };
    match lines_with(alloc, &problem.rules.space, entries, line) {
        Ok(lines) => say_all(out, lines.as_slice(), end),
        Err(_) => say_no_memory(out),
    }
}

/// Prints the incumbents of a search that has ended, and the last line.
fn report_end<P: Search, O: Sink>(
    alloc: Global,
    problem: &Problem,
    search: &P,
    out: &mut O,
) -> Status
    requires rules { P.rules_of search.now ≡ problem.now.rules }
    requires searched { let view = P.shown problem.now.rules (P.replies_of search.now) in
        IsSearched problem.now.rules view.entries view.last }
    ensures { let view = P.shown problem.now.rules (P.replies_of search.now) in
        let lines = all_lines problem.now.rules.space view.entries view.last in
        Reported (O.told out.old) (O.told out.new) result Status.Ok lines }
{
    let line = end_line(alloc, &problem.rules.space, search);
    report(alloc, problem, search, line, Status::Ok, out)
}

/// Prints the incumbents of a search so far, and the place and the settings of the run that
/// aborted.
fn report_abort<P: Search, O: Sink>(
    alloc: Global,
    problem: &Problem,
    search: &P,
    cell: Cell,
    out: &mut O,
) -> Status
    requires rules { P.rules_of search.now ≡ problem.now.rules }
    requires sound { Belongs problem.now.rules.space.params cell.config }
    ensures { let entries = (P.shown problem.now.rules (P.replies_of search.now)).entries in
        let line = Lines.aborted_line problem.now.rules.space cell.place cell.config in
        let lines = Lines.lines_with problem.now.rules.space entries line in
        Reported (O.told out.old) (O.told out.new) result (Status.Aborted cell) lines }
{
    let line = run_line(
        alloc,
        "aborted",
        &problem.rules.space,
        cell.place,
        &cell.config,
    );
    report(alloc, problem, search, line, Status::Aborted { cell }, out)
}

/// Prints the incumbents of a search so far, and the place and the settings of the run of a
/// seat that failed.
fn report_failure<P: Search, O: Sink>(
    alloc: Global,
    problem: &Problem,
    search: &P,
    seat: u32,
    cell: &Cell,
    out: &mut O,
) -> Status
    requires rules { P.rules_of search.now ≡ problem.now.rules }
    requires sound { Belongs problem.now.rules.space.params cell.now.config }
    ensures { let entries = (P.shown problem.now.rules (P.replies_of search.now)).entries in
        let line = Lines.child_fault_line problem.now.rules.space cell.now.place cell.now.config in
        let lines = Lines.lines_with problem.now.rules.space entries line in
        Reported (O.told out.old) (O.told out.new) result (Status.ChildFault seat) lines }
{
    let line = run_line(
        alloc,
        "childfault",
        &problem.rules.space,
        cell.place,
        &cell.config,
    );
    report(
        alloc,
        problem,
        search,
        line,
        Status::ChildFault { seat },
        out,
    )
}

/// Prints the incumbents of a search so far, and that there is no memory left; where there is
/// none for their lines either, only that.
fn report_short<P: Search, O: Sink>(
    alloc: Global,
    problem: &Problem,
    search: &P,
    out: &mut O,
) -> Status
    requires { P.rules_of search.now ≡ problem.now.rules }
    ensures { let entries = (P.shown problem.now.rules (P.replies_of search.now)).entries in
        let lines = Lines.lines_with problem.now.rules.space entries RefusalLines.no_memory_line in
        Reported (O.told out.old) (O.told out.new) result Status.NoMemory lines }
{
    let line = no_memory_line(alloc);
    report(alloc, problem, search, line, Status::NoMemory, out)
}

/// What a search keeps by its laws, whatever it was replied.
fn keeps_laws<P: Search>(search: &P)
    ensures ask { let view = P.shown (P.rules_of search.now) (P.replies_of search.now) in
        IsAsk (P.rules_of search.now) view.ask }
    ensures end { let view = P.shown (P.rules_of search.now) (P.replies_of search.now) in
        view.ask ≡ Ask.End → IsSearched (P.rules_of search.now) view.entries view.last }
{
    let _ = search.ask();
}

/// Prints how a board of this task came to its end.
pub(crate) fn report_ending<P: Search, O: Sink, S: Spawner>(
    alloc: Global,
    task: &Task,
    board: &Board<P, S>,
    out: &mut O,
) -> Status
    requires board { IsBoardOf task.now P.plain board.now }
    requires over { IsTrue (is_over P.shown board.now) }
    ensures { (call : Call) → Runs call task.now S.truth → StartsOf call Status.Ok
        → Conducted call (O.told out.old) (O.told out.new) result }
{
    board.is_board();
    let (problem, search) = (&task.problem, board.search());
    keeps_laws(search);
    match board.ending() {
        Ending::Finished => report_end(alloc, problem, search, out),
        Ending::Aborted(cell) => match cell.copy() {
            Ok(cell) => report_abort(alloc, problem, search, cell, out),
            Err(_) => report_short(alloc, problem, search, out),
        },
        Ending::Running => unreachable!(),
    }
}

/// Prints what a board of this task shows so far, and the run of a seat's kept ticket.
pub(crate) fn report_fault<P: Search, O: Sink, S: Spawner>(
    alloc: Global,
    task: &Task,
    board: &Board<P, S>,
    seat: u32,
    ticket: &Ticket,
    out: &mut O,
) -> Status
    requires board { IsBoardOf task.now P.plain board.now }
    requires taken { IsTakenIn task.now.problem board.now.journal ticket.now }
    ensures ending { (call : Call) → Runs call task.now S.truth → KeepsFault call task.now seat ticket.now
        → Conducted call (O.told out.old) (O.told out.new) result }
    ensures answer { EndsAs (Status.ChildFault seat) result }
{
    board.is_board();
    report_failure(
        alloc,
        &task.problem,
        board.search(),
        seat,
        &ticket.cell,
        out,
    )
}

/// Prints what a board of this task shows so far, and that there is no memory left.
pub(crate) fn report_no_memory<P: Search, O: Sink, S: Spawner>(
    alloc: Global,
    task: &Task,
    board: &Board<P, S>,
    out: &mut O,
) -> Status
    requires board { IsBoardOf task.now P.plain board.now }
    ensures ending { (call : Call) → Runs call task.now S.truth
        → Conducted call (O.told out.old) (O.told out.new) result }
    ensures answer { IsTrue (may_end_any_call result) }
{
    board.is_board();
    report_short(alloc, &task.problem, board.search(), out)
}
