//! Iterated local search over any comparer.
ghost use Rattle.std.specs.Prelude.{◌≡◌};
ghost use Rattle.objective.specs.Costs.{Table};
ghost use Rattle.ils_face.specs.declared.rules.Rules.{Rules};
ghost use Rattle.ils_face.specs.Rules.{AreRules};
ghost use Rattle.ils_face.specs.Follows.{sums_under};
ghost use Rattle.ils_frame.specs.ShownIncumbents.{KeepsInvariant};

use crate::beginning::{begin, set_out};
use crate::comparer::Comparer;
use crate::course::Course;
use crate::moment::Moment;
use crate::replies::Replies;
use crate::stage::Stage;
use crate::upcoming::next;
use ils_face::{Ask, Entry, Reply, Rules, Search};
use objective::{Memory, Sum};
use param_space::Config;
use std::alloc::Global;
use std::marker::Model;
use std::sync::Arc;

/// Iterated local search (ParamILS framework, Hutter et al., JAIR 36): initial random
/// configurations, iterative first improvement in the one-exchange neighbourhood,
/// perturbation and restarts, over the comparisons of a comparer. Contracts see it as its
/// rules and the list of its replies. A copy shares what only grows and what stays, so it
/// costs the same whatever the search has met.
#[derive(Drop)]
pub struct Ils<C: Comparer> {
    rules: Arc<Rules>,
    replies: Replies,
    comparer: C,
    course: Course,
    end: Ask,
}

impl<C: Comparer> Model for Ils<C> {
    ghost use Rattle.ils_frame.specs.Machine.{History, IsSearch, machine_of};

    ghost Value = { History };

    ghost view = { λ s. record { rules = s.rules.value; replies = s.replies.items } };

    ghost invariant = { λ s. let rules = s.rules.value in
        IsSearch C.parts (C.at_open rules) rules s.replies.items (machine_of s.comparer s.course) s.end };
}

impl<C: Comparer> Search for Ils<C> {
    ghost use Rattle.ils_face.specs.Setups.{setup_of};
    ghost use Rattle.ils_face.specs.Follows.{sums_under};
    ghost use Rattle.uncapped.specs.Searching.{search_after};
    ghost use Rattle.uncapped.specs.Totals.{quiet};
    ghost use Rattle.uncapped.specs.Uncapped.{run_after, at_first};
    ghost use Rattle.ils_frame.specs.Machine.{shown_after};
    ghost use Rattle.ils_frame.specs.Laws.SteadyLaw.{laws_steady};
    ghost use Rattle.ils_frame.specs.Laws.FollowsLaw.{laws_follow, laws_finish, laws_abort};

    ghost rules_of = { λ s. s.rules };

    ghost replies_of = { λ s. s.replies };

    ghost shown = { λ rules replies. shown_after C.parts (C.at_open rules) rules replies };

    ghost plain = { λ rules T. let sums = sums_under rules T in let setup = setup_of rules in
        run_after sums (search_after setup (C.better rules sums) (C.opening rules sums) (at_first setup)) };

    ghost steady = { λ rules are. laws_steady C.parts (C.at_open rules) rules are (C.fit rules) (C.steady rules are) };

    ghost follows = { λ rules T are. let sums = sums_under rules T in
        laws_follow C.parts (C.at_open rules) rules are (C.fit rules) (C.steady rules are) (C.stands rules sums)
        (C.coming rules sums) (C.better rules sums) (C.opening rules sums) T (C.keeps rules T are) };

    ghost finishes = { λ rules T are. let sums = sums_under rules (quiet T) in
        laws_finish C.parts (C.at_open rules) rules are (C.fit rules) (C.steady rules are) (C.stands rules sums)
        (C.coming rules sums) (C.better rules sums) (C.opening rules sums) T (C.keeps rules (quiet T) are) };

    ghost aborts = { λ rules T are. laws_abort C.parts (C.at_open rules) rules are (C.fit rules) (C.steady rules are)
        (C.stands rules) (C.coming rules) (C.better rules) (C.opening rules) T (λ T. C.keeps rules T are) };

    fn open(alloc: Global, rules: &Rules) -> Result<Ils<C>, Memory> {
        let kept = rules.copy()?;
        let mut comparer = C::open(alloc, &kept)?;
        let course = set_out(alloc, &kept, &mut comparer)?;
        Ok(Ils {
            rules: Arc::new(alloc, kept)?,
            replies: Replies::new(alloc)?,
            comparer,
            course,
            end: Ask::End,
        })
    }

    fn ask(&self) -> &Ask {
        if self.comparer.stage() == Stage::Asking {
            self.comparer.ask()
        } else {
            &self.end
        }
    }

    fn answer(&mut self, reply: Reply) -> Result<(), Memory> {
        self.replies.reserve()?;
        match self.comparer.decided_by(reply) {
            None => self.comparer.answer(reply)?,
            Some(won) => {
                let alloc = self.replies.allocator();
                let rules: &Rules = &self.rules;
                let compared = self.comparer.compared();
                let course = &self.course;
                let moment = Moment {
                    alloc,
                    compared,
                    event: course.event,
                };
                let upcoming = next(rules, moment, &course.purpose, won)?;
                self.comparer.answer(reply)?;
                begin(&mut self.comparer, &mut self.course, rules, upcoming);
            }
        }
        self.replies.push_reserved(reply);
        Ok(())
    }

    fn copy(&self) -> Result<Ils<C>, Memory> {
        Ok(Ils {
            rules: self.rules.clone()?,
            replies: self.replies.copy()?,
            comparer: self.comparer.copy()?,
            course: self.course.copy()?,
            end: Ask::End,
        })
    }

    fn answers(&self) -> u64 {
        self.replies.len()
    }

    fn compared(&self) -> u32 {
        self.comparer.compared()
    }

    fn entries(&self) -> &[Entry] {
        self.comparer.entries()
    }

    fn incumbent(&self) -> &Config {
        self.comparer.incumbent()
    }

    fn incumbent_runs(&self) -> u32 {
        self.comparer.incumbent_runs()
    }

    fn incumbent_sum(&self) -> Sum {
        self.comparer.incumbent_sum()
    }
}

/// Given the replies of a table, after each of them no configuration has more runs than the
/// incumbent that is shown, none with as many costs less over them, and the incumbent's cost
/// was replied.
pub fn keep_incumbents<C: Comparer>()
    ensures { (rules : Rules) (T : Table) → AreRules rules → let search = ⟦<Ils<C> as Search>⟧ in
        KeepsInvariant (search.shown rules) (sums_under rules T) (search.plain rules T) }
{}
