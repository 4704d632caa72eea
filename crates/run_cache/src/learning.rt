//! What is learnt from a run's answer.
ghost use Rattle.std.specs.Prelude.{◌≡◌};
ghost use Rattle.run_cache.specs.Learning;
ghost use Rattle.run_cache.specs.declared.known.Known.TheVariants.{Nothing, Over, Exact, Abort};

use crate::known::{Known, Learnt};
use objective::{Answer, Limits, Micros, Sum, penalty};

/// What a run's answer says of its cell.
#[derive(Clone, Copy)]
pub(crate) enum Evidence {
    /// It is solved after this time.
    Solved(Micros),
    /// It takes longer than this cutoff, which is below the full one.
    Longer(Micros),
    /// It is not solved within the full cutoff.
    Unsolved,
    /// It asks for the end of the tuning.
    Abort,
}

/// What is known after a run, and whether that contradicts what was known.
#[derive(Clone, Copy)]
pub(crate) struct Lesson {
    /// What is known.
    pub known: Known,
    /// Whether the run contradicts what was known.
    pub conflict: bool,
}

impl Lesson {
    /// The lesson that this is known, and whether it is a conflict.
    fn new(known: Known, conflict: bool) -> Lesson
        ensures { result ≡ Learning.with_conflict conflict known }
    {
        Lesson { known, conflict }
    }
}

/// What an answer under a cutoff says of its cell.
pub(crate) fn evidence_of(limits: &Limits, cutoff: Micros, answer: Answer) -> Evidence
    ensures { result ≡ Learning.evidence_of limits.now cutoff.0 answer }
{
    match answer {
        Answer::Solved(t) => Evidence::Solved(t),
        Answer::Timeout if cutoff.0 < limits.cutoff.0 => Evidence::Longer(cutoff),
        Answer::Timeout | Answer::Crashed => Evidence::Unsolved,
        Answer::Abort => Evidence::Abort,
    }
}

/// What is known from evidence alone.
fn first_lesson(penalty: Sum, evidence: Evidence) -> Lesson
    ensures { result ≡ Learning.lesson_from penalty.0 Nothing evidence }
{
    match evidence {
        Evidence::Solved(t) => Lesson::new(Known::Exact(Sum(t.0)), false),
        Evidence::Longer(cutoff) => Lesson::new(Known::Over(cutoff), false),
        Evidence::Unsolved => Lesson::new(Known::Exact(penalty), false),
        Evidence::Abort => Lesson::new(Known::Abort, false),
    }
}

/// What evidence adds to a timeout under a shortened cutoff.
fn longer_lesson(penalty: Sum, shown: Micros, evidence: Evidence) -> Lesson
    ensures { result ≡ Learning.lesson_from penalty.0 (Over shown) evidence }
{
    match evidence {
        Evidence::Solved(t) => Lesson::new(Known::Exact(Sum(t.0)), t.0 <= shown.0),
        Evidence::Longer(cutoff) => {
            Lesson::new(Known::Over(Micros(shown.0.max(cutoff.0))), false)
        }
        Evidence::Unsolved | Evidence::Abort => first_lesson(penalty, evidence),
    }
}

/// Whether evidence contradicts a known cost.
fn contradicts(penalty: Sum, cost: Sum, evidence: Evidence) -> bool
    ensures { result ≡ (Learning.lesson_from penalty.0 (Exact cost) evidence).conflict }
{
    match evidence {
        Evidence::Solved(t) => t.0 != cost.0,
        Evidence::Longer(cutoff) => cost.0 <= cutoff.0,
        Evidence::Unsolved => cost.0 != penalty.0,
        Evidence::Abort => true,
    }
}

/// What evidence adds to what was known, for the cost of a run without a solution.
fn lesson_from(penalty: Sum, known: Known, evidence: Evidence) -> Lesson
    ensures { result ≡ Learning.lesson_from penalty.0 known evidence }
{
    match known {
        Known::Nothing => first_lesson(penalty, evidence),
        Known::Over(shown) => longer_lesson(penalty, shown, evidence),
        Known::Exact(cost) => Lesson::new(known, contradicts(penalty, cost, evidence)),
        Known::Abort => match evidence {
            Evidence::Solved(_) | Evidence::Unsolved => Lesson::new(known, true),
            Evidence::Longer(_) | Evidence::Abort => Lesson::new(known, false),
        },
    }
}

/// What a run's answer under a cutoff adds to what was known.
pub(crate) fn lesson_of(limits: &Limits, known: Known, cutoff: Micros, answer: Answer) -> Lesson
    ensures { result ≡ Learning.lesson limits.now known cutoff.0 answer }
{
    lesson_from(penalty(limits), known, evidence_of(limits, cutoff, answer))
}

/// What a lesson comes to where this was known.
pub(crate) fn learnt(before: Known, lesson: Lesson) -> Learnt
    ensures { result ≡ Learning.learnt before lesson }
{
    if lesson.conflict {
        Learnt::Conflict
    } else if before == lesson.known {
        Learnt::Same
    } else {
        Learnt::Fresh
    }
}
