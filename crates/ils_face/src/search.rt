//! What every search promises.
ghost use Rattle.std.specs.Prelude.{◌≡◌, List, [], ◌∷◌, ◌++◌, length, IfOk, OnOk, OnErr};
ghost use Rattle.objective.specs.Costs.{Table};
ghost use Rattle.uncapped.specs.Totals.{quiet};
ghost use Rattle.uncapped.specs.Uncapped.{Run};
ghost use Rattle.ils_face.specs.Rules.{AreRules};
ghost use Rattle.ils_face.specs.declared.rules.Rules.{Rules};
ghost use Rattle.ils_face.specs.declared.asks.Reply.{Reply};
ghost use Rattle.ils_face.specs.Replies.{Fits};
ghost use Rattle.ils_face.specs.Views.{View, AreFitting};
ghost use Rattle.ils_face.specs.Steady.{IsSteady};
ghost use Rattle.ils_face.specs.Follows.{Follows, GoesThrough, sums_under};
ghost use Rattle.ils_face.specs.ProcedureAborts.{MeetsAborts};

use crate::asks::{Ask, Entry, Reply};
use crate::rules::Rules;
use objective::{Memory, Sum};
use param_space::Config;
use std::alloc::Global;

/// A search of the configurations of a space. It keeps its rules and the list of its
/// replies, and contracts see it as these two.
pub trait Search: Sized + Drop {
    /// The rules.
    ghost rules_of: { Self → Rules };

    /// The replies so far, oldest first.
    ghost replies_of: { Self → List Reply };

    /// What is shown under these rules after these replies.
    ghost shown: { Rules → List Reply → View };

    /// The procedure that is followed.
    ghost plain: { Rules → Table → Run };

    /// A search with no reply yet.
    fn open(alloc: Global, rules: &Rules) -> Result<Self, Memory>
        ensures rules { IfOk result (λ s. rules_of s ≡ rules.now) }
        ensures none { IfOk result (λ s. replies_of s ≡ []) }
        ensures ruled { IfOk result (λ s. AreRules (rules_of s)) };

    /// The present ask. Takes no memory, as all the calls that only read.
    fn ask(&self) -> &Ask
        ensures value { result.now ≡ (shown (rules_of self.now) (replies_of self.now)).ask }
        ensures ruled { AreRules (rules_of self.now) }
        ensures fitting { AreFitting (shown (rules_of self.now)) (replies_of self.now) };

    /// Takes the reply to the present ask. Where there is no memory left, the search is as
    /// it was.
    fn answer(&mut self, reply: Reply) -> Result<(), Memory>
        requires { Fits (shown (rules_of self.old) (replies_of self.old)).ask reply }
        ensures rules { rules_of self.new ≡ rules_of self.old }
        ensures taken { OnOk result (replies_of self.new ≡ replies_of self.old ++ reply ∷ []) }
        ensures err { OnErr result (self.new ≡ self.old) };

    /// The same search.
    fn copy(&self) -> Result<Self, Memory>
        ensures { IfOk result (λ s. s ≡ self.now) };

    /// The number of replies so far.
    fn answers(&self) -> u64
        ensures { result ≡ length (replies_of self.now) };

    /// The number of comparisons begun.
    fn compared(&self) -> u32
        ensures value { result ≡ (shown (rules_of self.now) (replies_of self.now)).last.compared }
        ensures ruled { AreRules (rules_of self.now) }
        ensures fitting { AreFitting (shown (rules_of self.now)) (replies_of self.now) };

    /// The incumbents so far, oldest first.
    fn entries(&self) -> &[Entry]
        ensures value { result.now ≡ (shown (rules_of self.now) (replies_of self.now)).entries }
        ensures ruled { AreRules (rules_of self.now) }
        ensures fitting { AreFitting (shown (rules_of self.now)) (replies_of self.now) };

    /// The present incumbent.
    fn incumbent(&self) -> &Config
        ensures value { result.now ≡ (shown (rules_of self.now) (replies_of self.now)).last.config }
        ensures ruled { AreRules (rules_of self.now) }
        ensures fitting { AreFitting (shown (rules_of self.now)) (replies_of self.now) };

    /// The number of its runs.
    fn incumbent_runs(&self) -> u32
        ensures value { result ≡ (shown (rules_of self.now) (replies_of self.now)).last.runs }
        ensures ruled { AreRules (rules_of self.now) }
        ensures fitting { AreFitting (shown (rules_of self.now)) (replies_of self.now) };

    /// The total cost of its runs.
    fn incumbent_sum(&self) -> Sum
        ensures value { result.0 ≡ (shown (rules_of self.now) (replies_of self.now)).last.sum }
        ensures ruled { AreRules (rules_of self.now) }
        ensures fitting { AreFitting (shown (rules_of self.now)) (replies_of self.now) };

    /// What holds whatever fitting replies come.
    ghost steady: { (rules : Rules) → AreRules rules → IsSteady rules (shown rules) };

    /// Given the replies of a table, it shows what the procedure does.
    ghost follows: { (rules : Rules) (T : Table) → AreRules rules
        → Follows (shown rules) (sums_under rules T) (plain rules T) };

    /// Over a table in which each abort counts as unsolved the procedure finishes, and the
    /// search goes through all its asks.
    ghost finishes: { (rules : Rules) (T : Table) → AreRules rules
        → GoesThrough (shown rules) (sums_under rules (quiet T)) (plain rules (quiet T)) };

    /// Where the table's own costs are known at all those asks, the procedure over the table
    /// is the same; else it is aborted at the first ask whose cost isn't known, with the same
    /// asks up to that one and the entries that were added before it.
    ghost aborts: { (rules : Rules) (T : Table) → AreRules rules
        → MeetsAborts (sums_under rules T) (plain rules T) (plain rules (quiet T)) };
}
