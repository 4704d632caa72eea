//! The comparer of FocusedILS.
ghost use Rattle.std.specs.Prelude.{◌≡◌, ◌==◌, ◌++◌, ◌∷◌, [], IfOk, OnOk, OnErr, IsSome, IsTrue, if◌then◌else◌};
ghost use Rattle.ils_face.specs.Replies.{ask_for};
ghost use Rattle.ils_frame.specs.Comparers.{question_in};
ghost use Rattle.focused_ils.specs.Counts.{count_in};
ghost use Rattle.focused_ils.specs.Comparison.{stage_at, is_incumbent_first, question_at};
ghost use Rattle.focused_ils.specs.State.{is_better, bonus_more, state_counted, state_next};

use crate::comparison::Comparison;
use crate::counts::Counts;
use ils_face::{Ask, Entry, Reply, Rules};
use ils_frame::{Comparer, Entries, Stage};
use objective::{Memory, Sum};
use param_space::Config;
use std::alloc::Global;
use std::marker::Model;

/// Compares two configurations by letting the one with fewer runs catch up, until one of the
/// two has at least as many runs as the other and costs no more on the other one's pairs. A
/// win is worth further runs.
#[derive(Drop)]
pub struct Focused {
    /// The pairs of an evaluation, at most.
    max_runs: u32,
    counts: Counts,
    comparison: Comparison,
    /// The further runs that a win is worth.
    bonus: u32,
    /// The incumbents so far, oldest first.
    entries: Entries,
}

impl Model for Focused {
    ghost use Rattle.std.specs.FinMap as map;
    ghost use Rattle.std.specs.Coded.{codes, coded_list, coded_ℕ};
    ghost use Rattle.std.specs.Cmp.Lexicographic.{slice_cmp};
    ghost use Rattle.std.specs.Ordering.{nat_cmp};
    ghost use Rattle.focused_ils.specs.State.{State};

    ghost Value = { State };

    ghost coded = { Prim.hlevel (codes, map.code {R = slice_cmp nat_cmp} (coded_list coded_ℕ) coded_ℕ) };

    ghost use Rattle.focused_ils.specs.View.{IsBonus};

    ghost view = { λ f. record {
      max_runs = f.max_runs;
      tally = record { counts = f.counts; last = f.comparison.last; bonus = f.bonus };
      phase = f.comparison.phase;
      entries = f.entries;
    } };

    ghost invariant = { λ f. IsBonus f.comparison.last.compared f.bonus };
}

impl Focused {
    /// The runs of a configuration, 0 where it wasn't met. Takes no memory.
    pub fn runs(&self, config: &Config) -> u32
        ensures { result ≡ count_in self.now.tally.counts config.now }
    {
        self.counts.runs(config)
    }

    /// The further runs that a win is worth. Takes no memory.
    pub fn bonus(&self) -> u32
        ensures { result ≡ self.now.tally.bonus }
    {
        self.bonus
    }

    /// Counts the evaluation that was asked for, and keeps the new incumbent. Where there is
    /// no memory left, all is as it was.
    fn count(&mut self, reply: Reply) -> Result<(), Memory>
        requires { IsSome (question_in (stage_at self.old.tally.last self.old.phase)) }
        ensures ok { OnOk result (self.new ≡ state_counted self.old reply) }
        ensures err { OnErr result (self.new ≡ self.old) }
    {
        let asked = self.comparison.asked();
        let places = asked.places();
        let config = asked.config().copy()?;
        match reply {
            Reply::Exact(sum) if self.comparison.is_better(sum) => {
                let incumbent = config.copy()?;
                let entry = self.comparison.entry(sum)?;
                self.counts
                    .raise_with(config, places, &mut self.entries, entry)?;
                self.comparison.renew(incumbent, sum);
            }
            Reply::Exact(sum) => {
                self.counts.raise(config, places)?;
                self.comparison.extend(sum);
            }
            Reply::Exceeds => self.counts.raise(config, places)?,
        }
        Ok(())
    }

    /// Goes to the next phase. Takes no memory.
    fn go_on(&mut self, reply: Reply)
        ensures { self.new ≡ state_next self.old reply }
    {
        let left = self.comparison.bonus_left(self.bonus);
        self.comparison
            .go_on(&self.counts, self.max_runs, self.bonus, reply);
        self.bonus = left;
    }
}

impl Comparer for Focused {
    ghost use Rattle.focused_ils.specs.State.{focused_parts, first_state, coming_in, IsFit, Stands};
    ghost use Rattle.focused_ils.specs.Laws.SteadyLaw.{rules_steady};
    ghost use Rattle.focused_ils.specs.Laws.KeepsLaw.{rules_keep};
    ghost use Rattle.param_space.specs.Configurations.{IsConfig};
    ghost use Rattle.ils_face.specs.Setups.{setup_of};
    ghost use Rattle.uncapped.specs.Evaluation.{better_focused};
    ghost use Rattle.uncapped.specs.Uncapped.{opening_focused};

    ghost parts = { focused_parts };

    ghost at_open = { first_state };

    ghost fit = { λ rules. IsFit rules.max_runs (IsConfig rules.space) };

    ghost stands = { λ rules. Stands };

    ghost opening = { λ rules sums. opening_focused (setup_of rules) };

    ghost better = { λ rules. better_focused (setup_of rules) };

    ghost coming = { λ rules. coming_in (setup_of rules) };

    fn open(alloc: Global, rules: &Rules) -> Result<Focused, Memory> {
        let start = rules.space.default_config()?;
        let comparison = Comparison::new(&start)?;
        let mut entries = Entries::new(alloc)?;
        entries.push(Entry {
            compared: 0,
            runs: 0,
            sum: Sum(0),
            config: start,
        })?;
        Ok(Focused {
            max_runs: rules.max_runs,
            counts: Counts::new(alloc)?,
            comparison,
            bonus: 0,
            entries,
        })
    }

    fn stage(&self) -> Stage {
        self.comparison.stage()
    }

    fn ask(&self) -> &Ask {
        self.comparison.asked().ask()
    }

    fn decided_by(&self, reply: Reply) -> Option<bool> {
        self.comparison.decided_by(&self.counts, reply)
    }

    fn answer(&mut self, reply: Reply) -> Result<(), Memory> {
        let led = self.comparison.is_incumbent_first();
        self.count(reply)?;
        if !led {
            self.go_on(reply);
        }
        Ok(())
    }

    fn begin(&mut self, first: Config, second: Config, compared: u32) {
        let n = self.counts.runs(&first);
        let m = self.counts.runs(&second);
        self.bonus += if n == m { 2 } else { 1 };
        self.comparison
            .begin(first, n, second, m, self.max_runs, compared);
    }

    fn copy(&self) -> Result<Focused, Memory> {
        Ok(Focused {
            max_runs: self.max_runs,
            counts: self.counts.copy()?,
            comparison: self.comparison.copy()?,
            bonus: self.bonus,
            entries: self.entries.copy()?,
        })
    }

    fn compared(&self) -> u32 {
        self.comparison.compared()
    }

    fn entries(&self) -> &[Entry] {
        self.entries.as_slice()
    }

    fn incumbent(&self) -> &Config {
        self.comparison.incumbent()
    }

    fn incumbent_runs(&self) -> u32 {
        self.comparison.runs()
    }

    fn incumbent_sum(&self) -> Sum {
        self.comparison.sum()
    }

    ghost steady = { rules_steady };

    ghost keeps = { rules_keep };
}
