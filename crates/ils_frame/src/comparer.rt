//! What every comparer promises.
ghost use Rattle.std.specs.Prelude.{◌≡◌, ◌≤◌, ◌<◌, List, Bool, true, None, IfOk, OnOk, OnErr, IsSome};
ghost use Rattle.objective.specs.Costs.{Table};
ghost use Rattle.objective.specs.Limits;
ghost use Rattle.param_space.specs.Configurations.{IsConfig};
ghost use Rattle.param_space.specs.Space.{defaults};
ghost use Rattle.uncapped.specs.Procedure.{Settings, Sums, PlainState, Procedure};
ghost use Rattle.ils_face.specs.Replies.{Fits, ask_for};
ghost use Rattle.ils_face.specs.Rules.{AreRules};
ghost use Rattle.ils_face.specs.Follows.{sums_under};
ghost use Rattle.ils_face.specs.Setups.{setup_of};
ghost use Rattle.ils_face.specs.declared.rules.Rules.{Rules};
ghost use Rattle.ils_frame.specs.Comparers.{Parts, IsSteadyComparer, Keeps, stage_of, question_in, decision_in};

use crate::stage::Stage;
use ils_face::{Ask, Entry, Reply, Rules};
use objective::{Memory, Sum};
use param_space::Config;
use std::alloc::Global;

/// Compares configurations by asking for total costs. Contracts see it as a state, and what
/// it shows is a function of that state.
pub trait Comparer: Sized + Drop {
    /// How it goes on, and what it shows.
    ghost parts: { Parts Self };

    /// The comparer of these rules before any reply.
    ghost at_open: { Rules → Self };

    /// It was reached by fitting replies.
    ghost fit: { Rules → Self → Type 0 };

    /// It was reached by the replies of these total costs, and stands for this state of the
    /// procedure.
    ghost stands: { Rules → Sums → Self → PlainState → Type 0 };

    /// The opening evaluation of the procedure.
    ghost opening: { Rules → Sums → Procedure (Unit {0}) };

    /// The comparison of the procedure.
    ghost better: { Rules → Sums → Settings → Settings → Procedure Bool };

    /// What is to come of the opening evaluation or of the comparison.
    ghost coming: { Rules → Sums → Self → Procedure Bool };

    /// A comparer with its opening evaluation to make, where it has one.
    fn open(alloc: Global, rules: &Rules) -> Result<Self, Memory>
        ensures { IfOk result (λ c. c ≡ at_open rules.now) };

    /// How far it is. Takes no memory, as all the calls that only read.
    fn stage(&self) -> Stage
        ensures { result ≡ stage_of (parts.stage self.now) };

    /// The open ask.
    fn ask(&self) -> &Ask
        requires { IsSome (question_in (parts.stage self.now)) }
        ensures { result.now ≡ ask_for (question_in (parts.stage self.now)) };

    /// What the comparison comes to by this reply, or nothing where an ask follows.
    fn decided_by(&self, reply: Reply) -> Option<bool>
        requires { Fits (ask_for (question_in (parts.stage self.now))) reply }
        ensures { result ≡ decision_in (parts.stage (parts.after self.now reply)) };

    /// Takes the reply to the open ask. Where there is no memory left, all is as it was.
    fn answer(&mut self, reply: Reply) -> Result<(), Memory>
        requires { Fits (ask_for (question_in (parts.stage self.old))) reply }
        ensures ok { OnOk result (self.new ≡ parts.after self.old reply) }
        ensures err { OnErr result (self.new ≡ self.old) };

    /// Begins a comparison of this number, which is greater than the last one's and at most
    /// `MAX_COMPARISONS`. Takes no memory.
    fn begin(&mut self, first: Config, second: Config, compared: u32)
        requires ready { question_in (parts.stage self.old) ≡ None }
        requires later { (parts.last self.old).compared < compared }
        requires within { compared ≤ Limits.max_comparisons }
        ensures { self.new ≡ parts.begun self.old first second compared };

    /// The same comparer. What only grows is shared, so a copy costs the same whatever was met.
    fn copy(&self) -> Result<Self, Memory>
        ensures { IfOk result (λ c. c ≡ self.now) };

    /// The number of the present comparison, 0 before the first.
    fn compared(&self) -> u32
        ensures { result ≡ (parts.last self.now).compared };

    /// The incumbents so far, oldest first.
    fn entries(&self) -> &[Entry]
        ensures { result.now ≡ parts.entries self.now };

    /// The present incumbent.
    fn incumbent(&self) -> &Config
        ensures { result.now ≡ (parts.last self.now).config };

    /// The number of its runs.
    fn incumbent_runs(&self) -> u32
        ensures { result ≡ (parts.last self.now).runs };

    /// The total cost of its runs.
    fn incumbent_sum(&self) -> Sum
        ensures { result.0 ≡ (parts.last self.now).sum };

    /// What holds whatever fitting replies come.
    ghost steady: { (rules : Rules) → AreRules rules → let start = defaults rules.space.params in
        IsSteadyComparer parts (fit rules) rules.max_runs (IsConfig rules.space) start (at_open rules) };

    /// With the replies of a table it does what the procedure does, and the incumbent
    /// invariant holds: no configuration has more runs than the incumbent, none with as many
    /// costs less over them, and the incumbent's cost was replied.
    ghost keeps: { (rules : Rules) (T : Table) → AreRules rules → let sums = sums_under rules T in
        Keeps parts (fit rules) (stands rules sums) (coming rules sums) (better rules sums) (opening rules sums)
        (setup_of rules) sums (at_open rules) };
}
