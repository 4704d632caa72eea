//! What a child writes that shows an answer.
ghost use Rattle.std.specs.Prelude.{◌≡◌, IfOk};
ghost use Rattle.objective.specs.Costs;
ghost use Rattle.objective.specs.declared.Answer.TheVariants.{Solved};
ghost use Rattle.wrapper_lines.specs.ResultLines.{answer_of};
ghost use Rattle.outside.specs.AnswerLines.{result_line, answer_line};

use objective::{Answer, Memory, Micros, Outcome, seen};
use plain_text::{Text, seconds_text};
use std::alloc::Global;

/// The result line with this word and this time.
fn result_text(alloc: Global, word: &str, time: &str) -> Result<Text, Memory>
    ensures { IfOk result (λ t. t ≡ result_line word.now time.now) }
{
    Text::new(format!(in alloc; "Result for ParamILS: {word}, {time}, 0, 0, 0\n")?)
}

/// The result line of a run that was solved after this time.
fn solved_text(alloc: Global, time: Micros) -> Result<Text, Memory>
    ensures { IfOk result (λ t. t ≡ answer_line (Solved time)) }
{
    let seconds = seconds_text(alloc, time.0)?;
    result_text(alloc, "SAT", seconds.as_str())
}

/// The result line that shows an answer.
fn line_text(alloc: Global, answer: Answer) -> Result<Text, Memory>
    ensures { IfOk result (λ t. t ≡ answer_line answer) }
{
    match answer {
        Answer::Solved(time) => solved_text(alloc, time),
        Answer::Timeout => result_text(alloc, "TIMEOUT", "0"),
        Answer::Crashed => result_text(alloc, "CRASHED", "0"),
        Answer::Abort => result_text(alloc, "ABORT", "0"),
    }
}

/// What a child writes whose run has this outcome, under a cutoff: the result line that shows
/// its answer.
pub fn output_of(alloc: Global, outcome: Outcome, cutoff: Micros) -> Result<Text, Memory>
    ensures line { IfOk result (λ t. t ≡ answer_line (Costs.seen outcome cutoff.0)) }
    ensures reads { IfOk result (λ t. answer_of t cutoff.0 ≡ Costs.seen outcome cutoff.0) }
{
    line_text(alloc, seen(outcome, cutoff))
}
