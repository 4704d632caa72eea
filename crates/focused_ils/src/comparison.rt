//! The incumbent and the present comparison.
ghost use Rattle.std.specs.Prelude.{ℕ, ◌≡◌, ◌+◌, min, ◌&&◌, not, false, None, IfOk, IsSome, nat_lt, nat_le, bytes_eq, if◌then◌else◌};
ghost use Rattle.ils_face.specs.Replies.{ask_of};
ghost use Rattle.ils_frame.specs.Comparers.{stage_of, decision_in};
ghost use Rattle.focused_ils.specs.Counts.{Counts, count_in};
ghost use Rattle.focused_ils.specs.Comparison as comparison;
ghost use Rattle.focused_ils.specs.State as state;
ghost use Rattle.focused_ils.specs.Comparison.{Turn, Opened, High, first_turn, phase_after_turn, stage_at, phase_next};
ghost use Rattle.focused_ils.specs.State.{first_incumbent, is_extended, last_where, bonus_next};
ghost use Rattle.focused_ils.specs.View.{first_seen, IsAsking, asked_in, IfLow, held_extended, held_at_begin, phase_from};

use crate::counts::Counts;
use crate::open_ask::OpenAsk;
use crate::phase::Phase;
use ils_face::{Ask, Entry, Reply};
use ils_frame::Stage;
use objective::{Memory, Sum};
use param_space::Config;
use std::marker::Model;

/// The incumbent with its runs, and how far the present comparison is. Each of the two
/// configurations is kept in the ask that it is evaluated by, and the incumbent too, so that
/// its ask is at hand where it goes first.
#[derive(Drop)]
pub(crate) struct Comparison {
    /// The number of the comparison, from 1; 0 before the first.
    compared: u32,
    incumbent: OpenAsk,
    /// The incumbent's runs, and their total cost.
    runs: u32,
    sum: Sum,
    /// Whether the one that catches up is the comparison's first.
    first_is_low: bool,
    /// The one with more runs.
    high: OpenAsk,
    /// The one that catches up.
    low: OpenAsk,
    phase: Phase,
}

impl Model for Comparison {
    ghost use Rattle.focused_ils.specs.View.{Held, phase_seen, AreForPhase};

    ghost Value = { Held };

    ghost view = { λ c. record {
      last = record { compared = c.compared; runs = c.runs; sum = c.sum.0; config = c.incumbent.config };
      phase = phase_seen c.first_is_low c.high c.low c.phase;
    } };

    ghost invariant = { λ c. AreForPhase c.first_is_low c.incumbent c.high c.low c.phase };
}

/// Whether two configurations have the same value numbers.
fn same_values(left: &[u16], right: &[u16]) -> bool
    ensures { result ≡ bytes_eq left.now right.now }
{
    left == right
}

/// Whether another configuration is evaluated on more places than the incumbent has runs.
fn is_overtaken(incumbent: &OpenAsk, runs: u32, other: &OpenAsk) -> bool
    ensures { result ≡ (not (bytes_eq other.now.config incumbent.now.config) && nat_lt runs other.now.places) }
{
    let same = same_values(other.config().values(), incumbent.config().values());
    !same && runs < other.places()
}

/// The evaluation of the comparison's first configuration.
fn first_of<'a>(first_is_low: bool, high: &'a OpenAsk, low: &'a OpenAsk) -> &'a OpenAsk
    ensures { result.now ≡ first_seen first_is_low high.now low.now }
{
    if first_is_low { low } else { high }
}

/// The places of the next turn.
fn next_places(places: u32, max_runs: u32) -> u32
    ensures { result ≡ min (places + 1) max_runs }
{
    if places < max_runs {
        places + 1
    } else {
        max_runs
    }
}

/// The places of the winner's further evaluation.
fn further_places(runs: u32, bonus: u32, max_runs: u32) -> u32
    ensures { result ≡ min (runs + bonus) max_runs }
{
    runs.saturating_add(bonus).min(max_runs)
}

/// Whether the one that catches up has as many runs by now, and costs no more.
fn low_dominates(counts: &Counts, high: &OpenAsk, reply: Reply) -> bool
    ensures { result ≡ comparison.low_dominates counts.now high.now.config high.now.places reply }
{
    match reply {
        Reply::Exact(_) => counts.runs(high.config()) <= high.places(),
        Reply::Exceeds => false,
    }
}

/// Whether the one with more runs costs no more.
fn high_dominates(bound: Sum, reply: Reply) -> bool
    ensures { result ≡ comparison.high_dominates bound.0 reply }
{
    match reply {
        Reply::Exact(sum) => bound.0 <= sum.0,
        Reply::Exceeds => true,
    }
}

impl Comparison {
    /// No comparison yet, and the default without a run.
    pub fn new(start: &Config) -> Result<Comparison, Memory>
        ensures { IfOk result (λ c. c ≡ record { last = first_incumbent start.now; phase = Opened }) }
    {
        Ok(Comparison {
            compared: 0,
            incumbent: OpenAsk::new(start.copy()?, 0),
            runs: 0,
            sum: Sum(0),
            first_is_low: true,
            high: OpenAsk::new(start.copy()?, 0),
            low: OpenAsk::new(start.copy()?, 0),
            phase: Phase::Opened,
        })
    }

    /// The number of the comparison, 0 before the first.
    pub fn compared(&self) -> u32
        ensures { result ≡ self.now.last.compared }
    {
        self.compared
    }

    /// The incumbent.
    pub fn incumbent(&self) -> &Config
        ensures { result.now ≡ self.now.last.config }
    {
        self.incumbent.config()
    }

    /// The number of its runs.
    pub fn runs(&self) -> u32
        ensures { result ≡ self.now.last.runs }
    {
        self.runs
    }

    /// Their total cost.
    pub fn sum(&self) -> Sum
        ensures { result.0 ≡ self.now.last.sum }
    {
        self.sum
    }

    /// How far it is.
    pub fn stage(&self) -> Stage
        ensures { result ≡ stage_of (stage_at self.now.last self.now.phase) }
    {
        match self.phase {
            Phase::Opened => Stage::Ready,
            Phase::High { .. } | Phase::Low { .. } | Phase::Further => Stage::Asking,
            Phase::Compared(won) => Stage::Decided(won),
        }
    }

    /// Whether the incumbent goes first.
    pub fn is_incumbent_first(&self) -> bool
        ensures { result ≡ comparison.is_incumbent_first self.now.last self.now.phase }
    {
        match self.phase {
            Phase::High { .. } => is_overtaken(&self.incumbent, self.runs, &self.high),
            Phase::Further => {
                let first = first_of(self.first_is_low, &self.high, &self.low);
                is_overtaken(&self.incumbent, self.runs, first)
            }
            Phase::Opened | Phase::Low { .. } | Phase::Compared(_) => false,
        }
    }

    /// The evaluation that is asked for.
    pub fn asked(&self) -> &OpenAsk
        requires { IsAsking self.now }
        ensures { result.now ≡ asked_in self.now }
    {
        if self.is_incumbent_first() {
            return &self.incumbent;
        }
        match self.phase {
            Phase::Low { .. } => &self.low,
            Phase::Further => first_of(self.first_is_low, &self.high, &self.low),
            Phase::High { .. } | Phase::Opened | Phase::Compared(_) => &self.high,
        }
    }

    /// Whether this cost makes a new incumbent.
    pub fn is_better(&self, sum: Sum) -> bool
        requires { IsAsking self.now }
        ensures { let asked = asked_in self.now in
            result ≡ state.is_better self.now.last asked.config asked.places sum.0 }
    {
        let asked = self.asked();
        let same = same_values(asked.config().values(), self.incumbent.config().values());
        !same && asked.places() == self.runs && sum.0 < self.sum.0
    }

    /// The entry of what is evaluated, with this cost.
    pub fn entry(&self, sum: Sum) -> Result<Entry, Memory>
        requires { IsAsking self.now }
        ensures { let asked = asked_in self.now in
            IfOk result (λ e. e ≡ state.entry self.now.last asked.config asked.places sum.0) }
    {
        let asked = self.asked();
        Ok(Entry {
            compared: self.compared,
            runs: asked.places(),
            sum,
            config: asked.config().copy()?,
        })
    }

    /// A configuration that was evaluated with this cost becomes the incumbent.
    pub fn renew(&mut self, config: Config, sum: Sum)
        requires { IsAsking self.old }
        ensures { let places = (asked_in self.old).places in
            self.new ≡ record self.old { last = state.entry self.old.last config places sum.0 } }
    {
        let places = self.asked().places();
        self.incumbent = OpenAsk::new(config, places);
        self.runs = places;
        self.sum = sum;
    }

    /// The incumbent has more runs with this cost, where it was evaluated on more places.
    pub fn extend(&mut self, sum: Sum)
        requires { IsAsking self.old }
        ensures { self.new ≡ held_extended self.old sum.0 }
    {
        let asked = self.asked();
        let places = asked.places();
        let same = same_values(asked.config().values(), self.incumbent.config().values());
        if same && self.runs < places {
            self.runs = places;
            self.sum = sum;
        }
    }

    /// A comparison begins, and its first turn.
    fn set_out(
        &mut self,
        first_is_low: bool,
        low: Config,
        high: Config,
        places: u32,
        more: u32,
        compared: u32,
    )
        ensures { let turn : Turn =
            record { first_is_low = first_is_low; low = low; high = high; places = places; more = more } in
            self.new ≡ record { last = record self.old.last { compared = compared }; phase = High turn } }
    {
        self.compared = compared;
        self.incumbent.ask_in_full(places);
        self.first_is_low = first_is_low;
        self.high = OpenAsk::new(high, places);
        self.low = OpenAsk::new(low, places);
        self.phase = Phase::High { more };
    }

    /// A comparison of this number begins, of two configurations with so many runs.
    pub fn begin(
        &mut self,
        first: Config,
        first_runs: u32,
        second: Config,
        second_runs: u32,
        max_runs: u32,
        compared: u32,
    )
        ensures { (counts : Counts) → first_runs ≡ count_in counts first → second_runs ≡ count_in counts second
            → self.new ≡ held_at_begin max_runs counts self.old first second compared }
    {
        if first_runs <= second_runs {
            let places = next_places(first_runs, max_runs);
            self.set_out(true, first, second, places, max_runs, compared);
        } else {
            let places = next_places(second_runs, max_runs);
            self.set_out(false, second, first, places, max_runs, compared);
        }
    }

    /// Goes to the next phase, by the reply to what was asked for.
    pub fn go_on(&mut self, counts: &Counts, max_runs: u32, bonus: u32, reply: Reply)
        ensures { self.new ≡ record self.old { phase = phase_next max_runs counts.now bonus self.old.phase reply } }
    {
        match (self.phase, reply) {
            (Phase::Opened | Phase::Compared(_), _) => {}
            (Phase::High { more }, Reply::Exact(bound)) => {
                self.low.ask_up_to(self.high.places(), bound);
                self.phase = Phase::Low { more, bound };
            }
            (Phase::High { .. }, Reply::Exceeds) => self.phase = Phase::Compared(false),
            (Phase::Low { more, bound }, _) => {
                let low = low_dominates(counts, &self.high, reply);
                let high = high_dominates(bound, reply);
                self.end_turn(counts, max_runs, bonus, more, low, high);
            }
            (Phase::Further, _) => self.phase = Phase::Compared(true),
        }
    }

    /// After a turn: the winner's further evaluation, the end, or a further turn.
    fn end_turn(
        &mut self,
        counts: &Counts,
        max_runs: u32,
        bonus: u32,
        more: u32,
        low: bool,
        high: bool,
    )
        ensures { IfLow self.old.phase (λ turn. more ≡ turn.more
            → self.new ≡ record self.old { phase = phase_after_turn max_runs counts.now bonus turn low high }) }
    {
        if !low && !high {
            if more == 0 {
                self.phase = Phase::Compared(false);
            } else {
                let places = next_places(self.high.places(), max_runs);
                self.high.ask_in_full(places);
                self.incumbent.ask_in_full(places);
                self.phase = Phase::High { more: more - 1 };
            }
        } else if self.first_is_low && low {
            let places = further_places(counts.runs(self.low.config()), bonus, max_runs);
            self.low.ask_in_full(places);
            self.incumbent.ask_in_full(places);
            self.phase = Phase::Further;
        } else if !self.first_is_low && high {
            let places = further_places(counts.runs(self.high.config()), bonus, max_runs);
            self.high.ask_in_full(places);
            self.incumbent.ask_in_full(places);
            self.phase = Phase::Further;
        } else {
            self.phase = Phase::Compared(false);
        }
    }

    /// The bonus that is left after the reply: the winner's further evaluation uses it up.
    pub fn bonus_left(&self, bonus: u32) -> u32
        ensures { result ≡ bonus_next self.now.phase bonus }
    {
        match self.phase {
            Phase::Further => 0,
            Phase::Opened | Phase::High { .. } | Phase::Low { .. } | Phase::Compared(_) => bonus,
        }
    }

    /// What the comparison comes to by this reply, or nothing where an ask follows.
    pub fn decided_by(&self, counts: &Counts, reply: Reply) -> Option<bool>
        ensures { (max_runs bonus : ℕ)
            → result ≡ decision_in (stage_at self.now.last (phase_from max_runs counts.now bonus self.now reply)) }
    {
        if self.is_incumbent_first() {
            return None;
        }
        match (self.phase, reply) {
            (Phase::Opened, _) => Some(false),
            (Phase::High { .. }, Reply::Exact(_)) => None,
            (Phase::High { .. }, Reply::Exceeds) => Some(false),
            (Phase::Low { more, bound }, _) => {
                let low = low_dominates(counts, &self.high, reply);
                let high = high_dominates(bound, reply);
                let first = if self.first_is_low { low } else { high };
                if first || (!low && !high && more > 0) {
                    None
                } else {
                    Some(false)
                }
            }
            (Phase::Further, _) => Some(true),
            (Phase::Compared(won), _) => Some(won),
        }
    }

    /// The same comparison.
    pub fn copy(&self) -> Result<Comparison, Memory>
        ensures { IfOk result (λ c. c ≡ self.now) }
    {
        Ok(Comparison {
            compared: self.compared,
            incumbent: self.incumbent.copy()?,
            runs: self.runs,
            sum: self.sum,
            first_is_low: self.first_is_low,
            high: self.high.copy()?,
            low: self.low.copy()?,
            phase: self.phase,
        })
    }
}
