//! A look ahead.
ghost use Rattle.std.specs.Prelude.{◌≡◌, ◌+◌, ◌<◌, ◌≤◌, ◌++◌, [], ◌∷◌, max, true, false, Ok, None, length, IfOk, IfSome, OnOk, OnErr};
ghost use Rattle.objective.specs.Limits.{max_runs};
ghost use Rattle.ils_face.specs.Replies.{Fits};
ghost use Rattle.run_cache.specs.Caches.{known_in};
ghost use Rattle.capping.specs.Decisions.{place_count};
ghost use Rattle.predictor.specs.Choices.{with_runs};
ghost use Rattle.predictor.specs.LookAheads.{after, with_step, GoesOnFrom};
ghost use Rattle.predictor.specs.Wishes as wishes;
ghost use Rattle.predictor.specs.Wishes.{runs_ahead, wishes_by, wishes_of};

use crate::choice::Choice;
use crate::prediction::{add_turn, has_bound, wishes_at_once};
use crate::wish::Wish;
use capping::{Verdict, decide};
use ils_face::{Ask, Reply, Search};
use objective::Memory;
use run_cache::Cache;
use std::alloc::Global;
use std::marker::Model;

/// The turns of a look ahead, at most.
const TURNS: u32 = 256;

/// A step of a look ahead: what was asked for, and what the search was followed by.
#[derive(Drop)]
pub struct Step {
    pub(crate) ask: Ask,
    pub(crate) reply: Reply,
}

/// A copy of a search that has gone ahead of it, and the steps between the two.
///
/// Where it's looked ahead once more, the steps are gone through by what is known then; the copy
/// only takes further ones.
#[derive(Drop)]
pub(crate) struct LookAhead<P: Search> {
    steps: Vec<Step>,
    ahead: P,
}

impl<P: Search> Model for LookAhead<P> {
    ghost use Rattle.predictor.specs.LookAheads.{LookAheadState, IsLookAhead};

    ghost Value = { LookAheadState };

    ghost view = { λ l. record { rules = P.rules_of l.ahead; replies = P.replies_of l.ahead; steps = l.steps.items } };

    ghost invariant = { λ l. IsLookAhead P.shown (view l) };
}

impl<P: Search> LookAhead<P> {
    /// From a search on, without a step.
    pub(crate) fn new(alloc: Global, ahead: P) -> LookAhead<P>
        ensures { result ≡ record { rules = P.rules_of ahead; replies = P.replies_of ahead; steps = [] } }
    {
        LookAhead {
            steps: Vec::new(alloc),
            ahead,
        }
    }

    /// What is asked for after so many steps.
    fn ask_after(&self, n: usize) -> &Ask
        requires { n ≤ length self.now.steps }
        ensures value { result.now ≡ (P.shown self.now.rules (after self.now n)).ask }
        ensures few { place_count result.now ≤ max_runs }
    {
        match self.steps.get(n) {
            Some(step) => &step.ask,
            None => self.ahead.ask(),
        }
    }

    /// Takes a further step, by a reply.
    fn go_on(&mut self, reply: Reply) -> Result<(), Memory>
        requires { Fits (P.shown self.old.rules self.old.replies).ask reply }
        ensures ok { OnOk result (self.new ≡ with_step P.shown self.old reply) }
        ensures err { OnErr result (self.new ≡ self.old) }
    {
        let ask = self.ahead.ask().copy()?;
        self.steps.reserve(1)?;
        self.ahead.answer(reply)?;
        self.steps.push_reserved(Step { ask, reply });
        Ok(())
    }

    /// Goes by a reply after so many steps, and tells whether it does: it has gone by another one where
    /// it has come further.
    pub(crate) fn go_by(&mut self, n: usize, reply: Reply) -> Result<bool, Memory>
        requires within { n ≤ length self.old.steps }
        requires fits { Fits (P.shown self.old.rules (after self.old n)).ask reply }
        ensures on { GoesOnFrom self.old self.new }
        ensures taken { result ≡ Ok true → after self.new (n + 1) ≡ after self.old n ++ reply ∷ [] }
        ensures long { result ≡ Ok true → n < length self.new.steps }
        ensures further { result ≡ Ok false → n < length self.old.steps }
        ensures few { length self.new.steps ≤ max (length self.old.steps) (n + 1) }
    {
        if let Some(step) = self.steps.get(n) {
            return Ok(step.reply == reply);
        }
        self.go_on(reply)?;
        Ok(true)
    }

    /// Adds the runs of at most `TURNS` turns from the first step on, while there is room, and tells
    /// whether all steps still hold.
    fn add_turns(&mut self, choice: &mut Choice, cache: &Cache) -> Result<bool, Memory>
        requires { 1 ≤ length self.old.steps }
        ensures on { GoesOnFrom self.old self.new }
        ensures runs { let shown = P.shown self.old.rules in
            let runs = runs_ahead shown cache.now.limits (known_in cache.now) 256 (after self.old 1) in
            result ≡ Ok true → choice.new ≡ with_runs (known_in cache.now) choice.old runs }
        ensures further { result ≡ Ok false → 1 < length self.old.steps }
    {
        for turn in 0..TURNS {
            let n = turn as usize + 1;
            let Some(reply) = add_turn(choice, cache, self.ask_after(n))? else {
                return Ok(true);
            };
            if !choice.has_room() {
                return Ok(true);
            }
            if !self.go_by(n, reply)? {
                return Ok(false);
            }
        }
        Ok(true)
    }

    /// Adds the runs that come should the bound of the first ask be exceeded, and tells whether all
    /// steps still hold.
    fn look(&mut self, choice: &mut Choice, cache: &Cache) -> Result<bool, Memory>
        requires { Fits (P.shown self.old.rules (after self.old 0)).ask Reply.Exceeds }
        ensures on { GoesOnFrom self.old self.new }
        ensures runs { let shown = P.shown self.old.rules in
            let replies = after self.old 0 ++ Reply.Exceeds ∷ [] in
            let runs = runs_ahead shown cache.now.limits (known_in cache.now) 256 replies in
            result ≡ Ok true → choice.new ≡ with_runs (known_in cache.now) choice.old runs }
        ensures further { result ≡ Ok false → 0 < length self.old.steps }
    {
        if !self.go_by(0, Reply::Exceeds)? {
            return Ok(false);
        }
        self.add_turns(choice, cache)
    }

    /// The wishes at the first ask, which has a bound.
    fn wishes_with_bound(
        &mut self,
        alloc: Global,
        cache: &Cache,
        ask: &Ask,
        k: u32,
    ) -> Result<Option<Vec<Wish>>, Memory>
        requires few { place_count ask.now ≤ max_runs }
        requires asked { ask.now ≡ (P.shown self.old.rules (after self.old 0)).ask }
        requires bound { wishes.has_bound ask.now ≡ true }
        ensures on { GoesOnFrom self.old self.new }
        ensures value { let wished = wishes_by (P.shown self.old.rules) cache.now (after self.old 0) ask.now k in
            IfOk result (λ found. IfSome found (λ w. w.items ≡ wished)) }
        ensures further { result ≡ Ok None → 0 < length self.old.steps }
    {
        let Verdict::Need { place, cutoff } = decide(cache, ask) else {
            return Ok(Some(Vec::new(alloc)));
        };
        let Ask::Versus { config, n, .. } = ask else {
            unreachable!()
        };
        let mut choice = Choice::new(alloc, config, place, k)?;
        if !self.look(&mut choice, cache)? {
            return Ok(None);
        }
        choice.add_after(cache, config, place, *n, cutoff)?;
        Ok(Some(choice.into_wishes()))
    }

    /// The wishes at the first ask, at most k. None where one of the steps doesn't hold any more.
    pub(crate) fn wishes(
        &mut self,
        alloc: Global,
        cache: &Cache,
        k: u32,
    ) -> Result<Option<Vec<Wish>>, Memory>
        ensures on { GoesOnFrom self.old self.new }
        ensures value { let shown = P.shown self.old.rules in
            let wished = wishes_of shown cache.now.limits (known_in cache.now) (after self.old 0) k in
            IfOk result (λ found. IfSome found (λ w. w.items ≡ wished)) }
        ensures further { result ≡ Ok None → 0 < length self.old.steps }
    {
        let ask = self.ask_after(0).copy()?;
        if has_bound(&ask) {
            return self.wishes_with_bound(alloc, cache, &ask, k);
        }
        Ok(Some(wishes_at_once(alloc, cache, &ask, k)?))
    }

    /// The same before the first step.
    pub(crate) fn first_wishes(
        &mut self,
        alloc: Global,
        cache: &Cache,
        k: u32,
    ) -> Result<Vec<Wish>, Memory>
        requires { self.old.steps ≡ [] }
        ensures on { GoesOnFrom self.old self.new }
        ensures value { let shown = P.shown self.old.rules in
            let wished = wishes_of shown cache.now.limits (known_in cache.now) (after self.old 0) k in
            IfOk result (λ w. w.items ≡ wished) }
    {
        match self.wishes(alloc, cache, k)? {
            Some(wishes) => Ok(wishes),
            None => unreachable!(),
        }
    }

    /// Lets the first step go.
    pub(crate) fn begin_later(&mut self)
        requires { 0 < length self.old.steps }
        ensures rules { self.new.rules ≡ self.old.rules }
        ensures start { after self.new 0 ≡ after self.old 1 }
    {
        self.steps.remove(0);
    }
}
