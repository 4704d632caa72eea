//! The keys that a scenario file gives.
ghost use Rattle.std.specs.Prelude.{◌≡◌, ◌^◌, ◌<◌, Ok, OnOk, IfOk, length};
ghost use Rattle.plain_text.specs.Faults.{in_line, FailsAs};
ghost use Rattle.plain_text.specs.Lines;
ghost use Rattle.scenario_files.specs.Faults.{fault_of, rule_of};
ghost use Rattle.scenario_files.specs.Files.{with_statement, with_line, lines_read, scenario_read};
ghost use Rattle.scenario_files.specs.Ranges.{AreWithin};

use crate::draft::Draft;
use crate::faults::{Refused, ScenarioFault, ScenarioWhat};
use crate::values::is_empty;
use plain_text::{MAX_BYTES, numbered_lines, parted, trimmed, uncommented};
use std::alloc::Global;
use std::str;

impl Draft {
    /// Takes what a line without a comment states.
    fn add_statement(&mut self, alloc: Global, text: &str) -> Result<(), Refused>
        ensures value { OnOk result (with_statement self.old text.now ≡ Ok self.new) }
        ensures fault { FailsAs rule_of result (with_statement self.old text.now) }
    {
        if is_empty(text) {
            return Ok(());
        }
        match parted(text, '=') {
            Some((key, value)) => self.set_named(alloc, trimmed(key), trimmed(value)),
            None => Err(Refused::Value(ScenarioWhat::NoEquals)),
        }
    }

    /// Takes what a line states.
    #[tactic(auto, unfolding(crate::specs::Files::with_line))]
    fn add_line(&mut self, alloc: Global, line: &[u8]) -> Result<(), Refused>
        ensures value { OnOk result (with_line self.old line.now ≡ Ok self.new) }
        ensures fault { FailsAs rule_of result (with_line self.old line.now) }
    {
        match str::from_utf8(line) {
            Ok(text) => self.add_statement(alloc, uncommented(text)),
            Err(_) => Err(Refused::Value(ScenarioWhat::NotText)),
        }
    }

    /// Takes what the line with this number states.
    fn add_numbered(&mut self, alloc: Global, number: u32, line: &[u8]) -> Result<(), ScenarioFault>
        ensures value { OnOk result (with_line self.old line.now ≡ Ok self.new) }
        ensures fault { FailsAs fault_of result (in_line number (with_line self.old line.now)) }
    {
        match self.add_line(alloc, line) {
            Ok(()) => Ok(()),
            Err(refused) => Err(refused.in_line(number)),
        }
    }
}

/// What a text's lines give. Fails with the first fault of a line.
fn read_lines(alloc: Global, text: &[u8]) -> Result<Draft, ScenarioFault>
    requires { length text.now < 2 ^ 32 }
    ensures value { IfOk result (λ d. lines_read (Lines.numbered_lines text.now) ≡ Ok d) }
    ensures fault { FailsAs fault_of result (lines_read (Lines.numbered_lines text.now)) }
{
    let mut draft = Draft::no_keys();
    for line in numbered_lines(text) {
        draft.add_numbered(alloc, line.number, line.bytes)?;
    }
    Ok(draft)
}

/// Reads the keys that a scenario file gives. Each lies within its limits. A file of more than
/// [`MAX_BYTES`] bytes is a `BadValue` of line 0.
///
/// # Errors
/// The first rule that is broken, in its line: any but `Missing`. Or
/// [`ScenarioFault::Memory`].
#[tactic(auto, unfolding(crate::specs::Files::scenario_read))]
pub fn read_scenario(alloc: Global, text: &[u8]) -> Result<Draft, ScenarioFault>
    ensures value { IfOk result (λ d. scenario_read text.now ≡ Ok d) }
    ensures fault { FailsAs fault_of result (scenario_read text.now) }
    ensures limits { IfOk result AreWithin }
{
    if text.len() > MAX_BYTES {
        return Err(ScenarioFault::At {
            line: 0,
            what: ScenarioWhat::BadValue,
        });
    }
    read_lines(alloc, text)
}
