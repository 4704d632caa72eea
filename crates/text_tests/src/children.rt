//! The seat, the files and the output in memory, and the faults that they are told to have.
ghost use Rattle.std.specs.Prelude.{◌≡◌, IsTrue, false, codes};
ghost use Rattle.wrapper_lines.specs.Runs.{AreWordsOf};

use crate::checks::check;
use objective::{Answer, Memory, Micros, Outcome};
use outside::{
    Fault, Files, MemoryFiles, MemorySink, Poll, Script, Sink, Spawner, Table, TableSeat,
    Unwritten, write_whole,
};
use plain_text::{Items, Text};
use std::alloc::Global;
use std::process::Abort;
use std::test::Fail;
use test_support::numbers;
use wrapper_lines::{Key, Program, Run, Setting, answer_of, read_program, words_of};

/// Each run is solved after three seconds.
#[derive(Drop)]
struct Steady;

impl Table for Steady {
    ghost use Rattle.objective.specs.declared.Outcome.TheVariants.{Solved};

    ghost outcome = { λ key. Solved (record { 0 = 3000000 }) };

    fn outcome(_key: &Key) -> Outcome {
        Outcome::Solved(Micros(3_000_000))
    }
}

/// A run of the instance `one` under a cutoff of ten seconds.
fn example_run(alloc: Global) -> Result<Run, Memory> {
    let mut settings = Vec::new(alloc);
    settings.push(Setting {
        name: Text::of(alloc, "x")?,
        value: Text::of(alloc, "a")?,
    })?;
    let key = Key {
        instance: Text::of(alloc, "one")?,
        specifics: Text::of(alloc, "0")?,
        seed: 1,
        settings: Items::new(settings)?,
    };
    Ok(Run {
        key,
        cutoff: Micros(10_000_000),
    })
}

/// The second start and the third look fail, and the first child is looked at once before its
/// end.
fn example_script(alloc: Global) -> Result<Script, Memory> {
    Ok(Script {
        pending: numbers(alloc, &[1])?,
        bad_starts: numbers(alloc, &[2])?,
        bad_polls: numbers(alloc, &[3])?,
        stuck: numbers(alloc, &[4])?,
    })
}

/// The first child is solved at the second look.
fn first_child(rt: &impl Abort, seat: &mut TableSeat<Steady>, words: &[Text], run: &Run)
    requires idle { IsTrue seat.old.told.idle }
    requires words { AreWordsOf (codes ".") words.now run.now }
    ensures { IsTrue seat.new.told.idle }
{
    assert!(rt; seat.start(".", words, run).is_ok());
    assert!(rt; matches!(seat.poll(), Ok(Poll::Pending)));
    assert!(rt; matches!(seat.poll(), Ok(Poll::Ended)));
    let answer = answer_of(seat.output(), run.cutoff);
    assert_eq!(rt; answer, Answer::Solved(Micros(3_000_000)));
}

/// The second start fails, and the third look.
fn failing_children(rt: &impl Abort, seat: &mut TableSeat<Steady>, words: &[Text], run: &Run)
    requires idle { IsTrue seat.old.told.idle }
    requires words { AreWordsOf (codes ".") words.now run.now }
{
    assert!(rt; seat.start(".", words, run).is_err());
    assert!(rt; seat.start(".", words, run).is_ok());
    assert!(rt; seat.poll().is_err());
    assert_eq!(rt; (seat.starts().len(), seat.faults()), (2, 2));
}

/// Runs a seat by its script, with these words of the run.
fn run_seat(rt: &impl Abort, alloc: Global, words: &[Text], run: &Run) -> Result<(), Memory>
    requires { AreWordsOf (codes ".") words.now run.now }
{
    let mut seat: TableSeat<Steady> = TableSeat::new(alloc, example_script(alloc)?)?;
    first_child(rt, &mut seat, words, run);
    failing_children(rt, &mut seat, words, run);
    Ok(())
}

/// Runs a seat with the words of this program's run.
fn run_program(rt: &impl Abort, alloc: Global, program: &Program, run: &Run) -> Result<(), Memory>
    requires { program.now.dir ≡ codes "." }
{
    let words = words_of(alloc, program, run)?;
    assert_eq!(rt; words.len(), 9);
    run_seat(rt, alloc, words.as_slice(), run)
}

/// Runs a seat with the words of this run.
fn run_child(rt: &impl Abort, alloc: Global, run: &Run) -> Result<(), Memory> {
    let program = read_program(alloc, "sh run", ".", 7)?;
    run_program(rt, alloc, &program, run)
}

#[test]
fn seat_follows_its_script(rt: HostRuntime) -> Result<(), Fail> {
    let run = example_run(rt.alloc())?;
    Ok(run_child(&rt, rt.alloc(), &run)?)
}

/// Whether a child is started.
fn is_started(seat: &mut TableSeat<Steady>, words: &[Text], run: &Run) -> bool
    requires idle { IsTrue seat.old.told.idle }
    requires words { AreWordsOf (codes ".") words.now run.now }
    ensures { IsTrue result → seat.new.told.idle ≡ false }
{
    seat.start(".", words, run).is_ok()
}

/// Whether the child is pending at this look.
fn is_pending(seat: &mut TableSeat<Steady>) -> bool
    requires { seat.old.told.idle ≡ false }
    ensures { IsTrue result → seat.new.told.idle ≡ false }
{
    matches!(seat.poll(), Ok(Poll::Pending))
}

/// Whether the child has ended at this look, and is read as solved after three seconds.
fn is_solved(seat: &mut TableSeat<Steady>, cutoff: Micros) -> bool
    requires { seat.old.told.idle ≡ false }
{
    match seat.poll() {
        Ok(Poll::Ended) => { answer_of(seat.output(), cutoff) == Answer::Solved(Micros(3_000_000)) }
        _ => false,
    }
}

/// What a killed child leaves behind.
const KILLED_LINE: &[u8] = b"Result for ParamILS: TIMEOUT, 0, 0, 0, 0\n";

/// Whether a child is pending at two looks; it is killed then, and leaves no line of its own run.
fn is_killed(seat: &mut TableSeat<Steady>, words: &[Text], run: &Run) -> bool
    requires idle { IsTrue seat.old.told.idle }
    requires words { AreWordsOf (codes ".") words.now run.now }
    ensures { IsTrue result → IsTrue seat.new.told.idle }
{
    if !is_started(seat, words, run) || !is_pending(seat) || !is_pending(seat) {
        return false;
    }
    seat.kill();
    seat.left() == KILLED_LINE
}

/// Whether the kill of the first child is no fault, and the second child ends.
fn goes_on(seat: &mut TableSeat<Steady>, words: &[Text], run: &Run) -> bool
    requires idle { IsTrue seat.old.told.idle }
    requires words { AreWordsOf (codes ".") words.now run.now }
{
    let right = seat.starts().len() == 1 && seat.faults() == 0;
    right && is_started(seat, words, run) && is_solved(seat, run.cutoff)
}

/// Whether the first child is killed, and the second one ends.
fn outlives_a_kill(seat: &mut TableSeat<Steady>, words: &[Text], run: &Run) -> bool
    requires idle { IsTrue seat.old.told.idle }
    requires words { AreWordsOf (codes ".") words.now run.now }
{
    let right = is_killed(seat, words, run) && goes_on(seat, words, run);
    right && seat.starts().len() == 2 && seat.faults() == 0
}

/// The first child is pending for so many looks, or is stuck.
fn script_of(alloc: Global, pending: u32, stuck: u32) -> Result<Script, Memory> {
    Ok(Script {
        pending: numbers(alloc, &[pending])?,
        bad_starts: numbers(alloc, &[])?,
        bad_polls: numbers(alloc, &[])?,
        stuck: numbers(alloc, &[stuck])?,
    })
}

/// Whether a seat whose first child is so outlives a kill, with these words of the run.
fn seat_outlives(
    alloc: Global,
    pending: u32,
    stuck: u32,
    words: &[Text],
    run: &Run,
) -> Result<bool, Memory>
    requires { AreWordsOf (codes ".") words.now run.now }
{
    let mut seat = TableSeat::new(alloc, script_of(alloc, pending, stuck)?)?;
    Ok(outlives_a_kill(&mut seat, words, run))
}

/// Whether a seat whose first child is so outlives a kill, with the words of this program's run.
fn program_outlives(
    alloc: Global,
    pending: u32,
    stuck: u32,
    program: &Program,
) -> Result<bool, Memory>
    requires { program.now.dir ≡ codes "." }
{
    let run = example_run(alloc)?;
    let words = words_of(alloc, program, &run)?;
    seat_outlives(alloc, pending, stuck, words.as_slice(), &run)
}

/// Whether a seat whose first child is pending for so many looks, or stuck, outlives a kill.
fn child_outlives(alloc: Global, pending: u32, stuck: u32) -> Result<bool, Memory> {
    let program = read_program(alloc, "sh run", ".", 7)?;
    program_outlives(alloc, pending, stuck, &program)
}

#[test]
fn children_are_killed(rt: HostRuntime) {
    for (name, pending, stuck) in &[("pending", 5, 0), ("stuck", 0, 1)] {
        let right = child_outlives(rt.alloc(), *pending, *stuck);
        check(&rt, matches!(right, Ok(true)), name);
    }
}

/// Whether the second read fails, and one of a file that there isn't.
fn is_read(files: &mut MemoryFiles) -> bool {
    let first = files.read("a").ok().as_deref() == Some(b"new".as_slice());
    let later = files.read("a").is_err() && files.read("b").is_err();
    first && later && files.faults() == 2
}

fn are_kept(alloc: Global) -> Result<bool, Memory> {
    let mut files = MemoryFiles::new(alloc);
    files.put("a", b"old")?;
    files.put("a", b"new")?;
    files.fail_at(2)?;
    Ok(is_read(&mut files))
}

#[test]
fn files_keep_what_they_are_given(rt: HostRuntime) {
    check(&rt, matches!(are_kept(rt.alloc()), Ok(true)), "files");
}

/// Whether whole pieces are written until the third write, which fails.
fn is_written_whole(sink: &mut MemorySink) -> bool {
    let whole = write_whole(sink, b"one").is_ok() && write_whole(sink, b"two").is_ok();
    whole
        && write_whole(sink, b"x") == Err(Unwritten::Fault)
        && sink.bytes() == b"onetwo".as_slice()
}

fn is_whole(alloc: Global) -> Result<bool, Memory> {
    let mut sink = MemorySink::new(alloc);
    sink.fail_at(3)?;
    Ok(is_written_whole(&mut sink))
}

/// Whether the second write fails, and the third takes nothing.
fn is_written(sink: &mut MemorySink) -> bool {
    let first = sink.write(b"one") == Ok(3) && sink.write(b"x") == Err(Fault::Failed);
    let later = sink.write(b"y") == Ok(0) && sink.write(b"two") == Ok(3);
    first && later && sink.bytes() == b"onetwo".as_slice() && sink.faults() == 1
}

fn is_kept(alloc: Global) -> Result<bool, Memory> {
    let mut sink = MemorySink::new(alloc);
    sink.fail_at(2)?;
    sink.nothing_at(3)?;
    Ok(is_written(&mut sink))
}

#[test]
fn sink_keeps_what_it_is_given(rt: HostRuntime) {
    check(&rt, matches!(is_kept(rt.alloc()), Ok(true)), "output");
    check(
        &rt,
        matches!(is_whole(rt.alloc()), Ok(true)),
        "whole pieces",
    );
}
