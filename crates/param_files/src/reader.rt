//! The space that a parameter file states.
ghost use Rattle.std.specs.Prelude.{◌≡◌, ◌^◌, ◌<◌, Ok, OnOk, IfOk, IfErr, length};
ghost use Rattle.plain_text.specs.Faults.{in_line, FailsAs};
ghost use Rattle.param_files.specs.Faults.{fault_of};
ghost use Rattle.param_files.specs.Reading.{line_stated, space_made, params_read};
ghost use Rattle.param_files.specs.KeptStatements.{kept_line, kept_lines};
ghost use Rattle.param_files.specs.StatementTokens.{AreStatements, IsFormless};

use crate::faults::{ParamFault, ParamWhat, broken};
use crate::forms::statement_of;
use crate::kept::SpaceDraft;
use crate::numbering::{NumberedRelations, all_by_numbers, line_of};
use crate::statements::Statement;
use param_space::{Param, Space, SpaceFault, SpaceWhat};
use plain_text::{MAX_BYTES, numbered_lines, token_texts};
use std::alloc::Global;
use std::str;

/// What a line states. Fails where it is no text or has none of the forms.
#[tactic(auto, unfolding(crate::specs::Reading::line_stated))]
fn statement_in(alloc: Global, line: u32, bytes: &[u8]) -> Result<Statement, ParamFault>
    ensures value { IfOk result (λ s. line_stated bytes.now ≡ Ok s) }
    ensures fault { FailsAs fault_of result (in_line line (line_stated bytes.now)) }
{
    let Ok(text) = str::from_utf8(bytes) else {
        return Err(ParamFault::At {
            line,
            what: ParamWhat::NotText,
        });
    };
    let tokens = token_texts(alloc, text)?;
    match statement_of(alloc, tokens.as_slice())? {
        Some(statement) => Ok(statement),
        None => Err(ParamFault::At {
            line,
            what: ParamWhat::Form,
        }),
    }
}

impl SpaceDraft {
    /// Keeps what the line with this number states. Fails with the first rule that it breaks.
    fn add_line(&mut self, alloc: Global, number: u32, bytes: &[u8]) -> Result<(), ParamFault>
        ensures value { OnOk result (kept_line self.old number bytes.now ≡ Ok self.new) }
        ensures fault { FailsAs fault_of result (in_line number (kept_line self.old number bytes.now)) }
    {
        let statement = statement_in(alloc, number, bytes)?;
        self.add(alloc, number, statement)
    }
}

/// What is kept of a text's lines. Fails with the first fault of a line.
fn read_lines(alloc: Global, text: &[u8]) -> Result<SpaceDraft, ParamFault>
    requires { length text.now < 2 ^ 32 }
    ensures value { IfOk result (λ k. kept_lines text.now ≡ Ok k) }
    ensures fault { FailsAs fault_of result (kept_lines text.now) }
{
    let mut kept = SpaceDraft::new(alloc);
    for line in numbered_lines(text) {
        kept.add_line(alloc, line.number, line.bytes)?;
    }
    Ok(kept)
}

/// The space of these lists. Fails with the first rule of a space that they break, in its
/// line.
fn space_of(
    alloc: Global,
    params: Vec<Param>,
    numbered: NumberedRelations,
) -> Result<Space, ParamFault>
    ensures value { IfOk result (λ s. space_made params.items numbered ≡ Ok s) }
    ensures fault { FailsAs fault_of result (space_made params.items numbered) }
{
    let NumberedRelations {
        conditions,
        condition_lines,
        clauses,
        clause_lines,
    } = numbered;
    match Space::new(alloc, params, conditions, clauses) {
        Ok(space) => Ok(space),
        Err(SpaceFault::At { part, place, what }) => {
            let line = line_of(
                condition_lines.as_slice(),
                clause_lines.as_slice(),
                part,
                place,
            );
            Err(broken(line, what))
        }
        Err(SpaceFault::Memory) => Err(ParamFault::Memory),
    }
}

/// The space that a text states.
#[tactic(auto, unfolding(crate::specs::Reading::params_read))]
fn space_in(alloc: Global, text: &[u8]) -> Result<Space, ParamFault>
    ensures value { IfOk result (λ s. params_read text.now ≡ Ok s) }
    ensures fault { FailsAs fault_of result (params_read text.now) }
{
    if text.len() > MAX_BYTES {
        return Err(broken(0, SpaceWhat::TooMany));
    }
    let SpaceDraft {
        params,
        relations,
        ..
    } = read_lines(alloc, text)?;
    if params.is_empty() {
        return Err(broken(0, SpaceWhat::NoParameters));
    }
    let numbered = all_by_numbers(alloc, params.as_slice(), relations.as_slice())?;
    space_of(alloc, params, numbered)
}

/// Reads the space that a parameter file states: its lines, then the names and values of its
/// conditions and clauses, and then the space as a whole.
///
/// # Errors
/// The first rule that is broken, in its line, or [`ParamFault::Memory`].
pub fn read_params(alloc: Global, text: &[u8]) -> Result<Space, ParamFault>
    ensures value { IfOk result (λ s. params_read text.now ≡ Ok s) }
    ensures fault { FailsAs fault_of result (params_read text.now) }
    ensures lines { IfOk result (λ _. AreStatements text.now) }
    ensures form { IfErr result (IsFormless text.now) }
{
    space_in(alloc, text)
}
