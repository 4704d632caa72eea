//! The comparer of BasicILS.
ghost use Rattle.std.specs.Prelude.{◌≡◌, IfOk, OnOk, OnErr, bytes_eq};
ghost use Rattle.basic_ils.specs.Comparison.{phase_after};
ghost use Rattle.basic_ils.specs.State.{evaluated_config, is_renewed, state_renewed};

use crate::phase::Phase;
use ils_face::{Ask, Entry, Reply, Rules};
use ils_frame::{Comparer, Entries, Stage};
use objective::{Memory, Sum};
use param_space::Config;
use std::alloc::Global;
use std::marker::Model;

/// Compares two configurations by their total costs over all `max_runs` pairs.
#[derive(Drop)]
pub struct Basic {
    /// The pairs of each evaluation.
    max_runs: u32,
    /// The number of the present comparison, from 1; 0 before the first.
    compared: u32,
    incumbent: Config,
    /// The incumbent's runs, and their total cost.
    runs: u32,
    sum: Sum,
    /// The open ask, or the end where nothing is asked.
    asked: Ask,
    phase: Phase,
    /// The incumbents so far, oldest first.
    entries: Entries,
}

impl Model for Basic {
    ghost use Rattle.basic_ils.specs.State.{State};
    ghost use Rattle.basic_ils.specs.View.{phase_seen, IsAskOf};

    ghost Value = { State };

    ghost view = { λ b. record {
      max_runs = b.max_runs;
      last = record { compared = b.compared; runs = b.runs; sum = b.sum.0; config = b.incumbent };
      phase = phase_seen b.asked b.phase;
      entries = b.entries;
    } };

    ghost invariant = { λ b. IsAskOf b.max_runs b.incumbent b.asked (phase_seen b.asked b.phase) };
}

/// Whether two configurations have the same value numbers.
fn same_values(left: &[u16], right: &[u16]) -> bool
    ensures { result ≡ bytes_eq left.now right.now }
{
    left == right
}

impl Basic {
    /// The configuration that is evaluated, or else the incumbent.
    fn evaluated(&self) -> &Config
        ensures { result.now ≡ evaluated_config self.now.last.config self.now.phase }
    {
        match &self.asked {
            Ask::Full { config, .. } | Ask::Versus { config, .. } => config,
            Ask::End => &self.incumbent,
        }
    }

    /// Whether this cost makes a new incumbent.
    fn is_renewed_by(&self, sum: Sum) -> bool
        ensures { result ≡ is_renewed self.now.last self.now.phase sum.0 }
    {
        match &self.phase {
            Phase::Opening => true,
            _ => {
                let same = same_values(self.evaluated().values(), self.incumbent.values());
                !same && sum.0 < self.sum.0
            }
        }
    }

    /// What is evaluated becomes the incumbent, with its entry. Where there is no memory
    /// left, all is as it was.
    fn renew(&mut self, sum: Sum) -> Result<(), Memory>
        ensures ok { OnOk result (self.new ≡ state_renewed self.old sum.0) }
        ensures err { OnErr result (self.new ≡ self.old) }
    {
        let incumbent = self.evaluated().copy()?;
        let entry = Entry {
            compared: self.compared,
            runs: self.max_runs,
            sum,
            config: incumbent.copy()?,
        };
        self.entries.push(entry)?;
        self.incumbent = incumbent;
        self.runs = self.max_runs;
        self.sum = sum;
        Ok(())
    }

    /// Goes to the next phase. Takes no memory.
    fn go_on(&mut self, reply: Reply)
        ensures { self.new ≡ record self.old { phase = phase_after self.old.phase reply } }
    {
        let phase = std::mem::replace(&mut self.phase, Phase::Opened);
        let (asked, phase) = match (phase, reply) {
            (Phase::Opening | Phase::Opened, _) => (Ask::End, Phase::Opened),
            (Phase::Second { first }, Reply::Exact(bound)) => (
                Ask::Versus {
                    config: first,
                    n: self.max_runs,
                    bound,
                },
                Phase::First,
            ),
            (Phase::First, Reply::Exact(_)) => (Ask::End, Phase::Compared(true)),
            (Phase::Second { .. } | Phase::First, Reply::Exceeds) => {
                (Ask::End, Phase::Compared(false))
            }
            (Phase::Compared(won), _) => (Ask::End, Phase::Compared(won)),
        };
        self.asked = asked;
        self.phase = phase;
    }
}

/// The same phase.
fn copy_phase(phase: &Phase) -> Result<Phase, Memory>
    ensures { IfOk result (λ p. p ≡ phase.now) }
{
    match phase {
        Phase::Opening => Ok(Phase::Opening),
        Phase::Opened => Ok(Phase::Opened),
        Phase::Second { first } => Ok(Phase::Second {
            first: first.copy()?,
        }),
        Phase::First => Ok(Phase::First),
        Phase::Compared(won) => Ok(Phase::Compared(*won)),
    }
}

impl Comparer for Basic {
    ghost use Rattle.basic_ils.specs.State.{basic_parts, first_state, coming_in, IsFit, Stands};
    ghost use Rattle.basic_ils.specs.Laws.SteadyLaw.{rules_steady};
    ghost use Rattle.basic_ils.specs.Laws.KeepsLaw.{rules_keep};
    ghost use Rattle.param_space.specs.Configurations.{IsConfig};
    ghost use Rattle.param_space.specs.Space.{defaults};
    ghost use Rattle.ils_face.specs.Setups.{setup_of};
    ghost use Rattle.uncapped.specs.Evaluation.{better_basic};
    ghost use Rattle.uncapped.specs.Uncapped.{opening_basic};

    ghost parts = { basic_parts };

    ghost at_open = { first_state };

    ghost fit = { λ rules. IsFit rules.max_runs (IsConfig rules.space) };

    ghost stands = { λ rules. Stands (defaults rules.space.params) };

    ghost opening = { λ rules. opening_basic (setup_of rules) };

    ghost better = { λ rules. better_basic (setup_of rules) };

    ghost coming = { λ rules. coming_in (setup_of rules) };

    fn open(alloc: Global, rules: &Rules) -> Result<Basic, Memory> {
        let incumbent = rules.space.default_config()?;
        Ok(Basic {
            max_runs: rules.max_runs,
            compared: 0,
            runs: 0,
            sum: Sum(0),
            asked: Ask::Full {
                config: incumbent.copy()?,
                n: rules.max_runs,
            },
            incumbent,
            phase: Phase::Opening,
            entries: Entries::new(alloc)?,
        })
    }

    fn stage(&self) -> Stage {
        match &self.phase {
            Phase::Opened => Stage::Ready,
            Phase::Opening | Phase::Second { .. } | Phase::First => Stage::Asking,
            Phase::Compared(won) => Stage::Decided(*won),
        }
    }

    fn ask(&self) -> &Ask {
        &self.asked
    }

    fn decided_by(&self, reply: Reply) -> Option<bool> {
        match (&self.phase, reply) {
            (Phase::Opening | Phase::Opened, _) => Some(false),
            (Phase::Second { .. }, Reply::Exact(_)) => None,
            (Phase::First, Reply::Exact(_)) => Some(true),
            (Phase::Second { .. } | Phase::First, Reply::Exceeds) => Some(false),
            (Phase::Compared(won), _) => Some(*won),
        }
    }

    fn answer(&mut self, reply: Reply) -> Result<(), Memory> {
        match reply {
            Reply::Exact(sum) if self.is_renewed_by(sum) => self.renew(sum)?,
            _ => {}
        }
        self.go_on(reply);
        Ok(())
    }

    fn begin(&mut self, first: Config, second: Config, compared: u32) {
        self.compared = compared;
        self.asked = Ask::Full {
            config: second,
            n: self.max_runs,
        };
        self.phase = Phase::Second { first };
    }

    fn copy(&self) -> Result<Basic, Memory> {
        Ok(Basic {
            max_runs: self.max_runs,
            compared: self.compared,
            incumbent: self.incumbent.copy()?,
            runs: self.runs,
            sum: self.sum,
            asked: self.asked.copy()?,
            phase: copy_phase(&self.phase)?,
            entries: self.entries.copy()?,
        })
    }

    fn compared(&self) -> u32 {
        self.compared
    }

    fn entries(&self) -> &[Entry] {
        self.entries.as_slice()
    }

    fn incumbent(&self) -> &Config {
        &self.incumbent
    }

    fn incumbent_runs(&self) -> u32 {
        self.runs
    }

    fn incumbent_sum(&self) -> Sum {
        self.sum
    }

    ghost steady = { rules_steady };

    ghost keeps = { rules_keep };
}
