//! What a search may need next.
ghost use Rattle.std.specs.Prelude.{◌≡◌, ◌≤◌, List, false, All, length, IfOk, OnOk, IfSome, IsSomeAnd};
ghost use Rattle.objective.specs.Limits.{max_runs};
ghost use Rattle.ils_face.specs.PresentViews.{view_of};
ghost use Rattle.ils_face.specs.Replies.{Fits};
ghost use Rattle.ils_face.specs.Traces.{question_of};
ghost use Rattle.run_cache.specs.Caches.{known_in};
ghost use Rattle.capping.specs.Decisions.{place_count, IsNeeded};
ghost use Rattle.capping.specs.declared.verdicts.Verdict.TheVariants.{Need};
ghost use Rattle.predictor.specs.Choices.{with_runs};
ghost use Rattle.ils_face.specs.Views.{View};
ghost use Rattle.predictor.specs.Wishes.{turn_of, wishes_by};
ghost use Rattle.predictor.specs.Wishes as wishes;
ghost use Rattle.predictor.specs.Promises.{IsWish, TellsMore, AreApart};
ghost use Rattle.predictor.specs.SearchWishes.{turn_by, wishes_on, wishes_now, needed_now};

use crate::choice::Choice;
use crate::look_ahead::LookAhead;
use crate::wish::Wish;
use capping::{Verdict, decide};
use ils_face::{Ask, Reply, Search};
use objective::{Memory, Micros};
use run_cache::Cache;
use std::alloc::Global;

/// Adds the runs that a turn finds at an ask that needs a run, and gives the reply that the
/// search is followed by, unless the turn is the last.
fn add_needed(
    choice: &mut Choice,
    cache: &Cache,
    ask: &Ask,
    place: u32,
    cutoff: Micros,
) -> Result<Option<Reply>, Memory>
    requires { IsSomeAnd (question_of ask.now) (IsNeeded cache.now.limits (known_in cache.now) place cutoff.0) }
    ensures runs { let turn = turn_of ask.now (Need place cutoff) in
        OnOk result (choice.new ≡ with_runs (known_in cache.now) choice.old turn.runs) }
    ensures reply { IfOk result (λ r. r ≡ (turn_of ask.now (Need place cutoff)).reply) }
    ensures fits { IfOk result (λ r. IfSome r (Fits ask.now)) }
{
    match ask {
        Ask::Full { config, n } => {
            choice.add(config, place, cutoff)?;
            choice.add_after(cache, config, place, *n, cutoff)?;
            Ok(None)
        }
        Ask::Versus { config, .. } => {
            choice.add(config, place, cutoff)?;
            Ok(Some(Reply::Exceeds))
        }
        Ask::End => Ok(None),
    }
}

/// Adds the runs that a turn finds at an ask, and gives the reply that the search is followed
/// by, unless the turn is the last.
pub(crate) fn add_turn(
    choice: &mut Choice,
    cache: &Cache,
    ask: &Ask,
) -> Result<Option<Reply>, Memory>
    requires { place_count ask.now ≤ max_runs }
    ensures runs { let turn = turn_by cache.now ask.now in
        OnOk result (choice.new ≡ with_runs (known_in cache.now) choice.old turn.runs) }
    ensures reply { IfOk result (λ r. r ≡ (turn_by cache.now ask.now).reply) }
    ensures fits { IfOk result (λ r. IfSome r (Fits ask.now)) }
{
    match decide(cache, ask) {
        Verdict::Reply(reply) => Ok(Some(reply)),
        Verdict::Need { place, cutoff } => add_needed(choice, cache, ask, place, cutoff),
        Verdict::Aborted { .. } | Verdict::Ended => Ok(None),
    }
}

/// Whether an ask has a bound.
pub(crate) fn has_bound(ask: &Ask) -> bool
    ensures { result ≡ wishes.has_bound ask.now }
{
    matches!(ask, Ask::Versus { .. })
}

/// The wishes at an ask without a bound: its later places. Nothing is looked ahead for them.
pub(crate) fn wishes_at_once(
    alloc: Global,
    cache: &Cache,
    ask: &Ask,
    k: u32,
) -> Result<Vec<Wish>, Memory>
    requires few { place_count ask.now ≤ max_runs }
    requires without { wishes.has_bound ask.now ≡ false }
    ensures { (shown : List Reply → View) (replies : List Reply)
        → IfOk result (λ w. w.items ≡ wishes_by shown cache.now replies ask.now k) }
{
    let Verdict::Need { place, cutoff } = decide(cache, ask) else {
        return Ok(Vec::new(alloc));
    };
    let Ask::Full { config, n } = ask else {
        return Ok(Vec::new(alloc));
    };
    let mut choice = Choice::new(alloc, config, place, k)?;
    choice.add_after(cache, config, place, *n, cutoff)?;
    Ok(choice.into_wishes())
}

/// The wishes at an ask, which is the search's present one.
fn wishes_for<P: Search>(
    alloc: Global,
    search: &P,
    cache: &Cache,
    ask: &Ask,
    k: u32,
) -> Result<Vec<Wish>, Memory>
    requires present { ask.now ≡ (view_of P.Search search.now).ask }
    requires places { place_count ask.now ≤ max_runs }
    ensures { IfOk result (λ w. w.items ≡ wishes_on P.Search search.now cache.now ask.now k) }
{
    if !has_bound(ask) {
        return wishes_at_once(alloc, cache, ask, k);
    }
    LookAhead::new(alloc, search.copy()?).first_wishes(alloc, cache, k)
}

/// At most k runs that may be needed after the one that is needed now, in the order in which idle
/// seats are to make them. There are none unless a run is needed now.
///
/// At an ask in full they are those at the later places of its configuration. At one with a bound
/// the search is first followed on one copy as if that bound, and each later one, were exceeded;
/// the later places come after what is found there. The search itself is left as it was. With
/// k = 0 nothing is looked at, and nothing copied.
///
/// Fails only for want of memory.
pub fn wishes<P: Search>(
    alloc: Global,
    search: &P,
    cache: &Cache,
    k: u32,
) -> Result<Vec<Wish>, Memory>
    ensures value { IfOk result (λ w. w.items ≡ wishes_now P.Search search.now cache.now k) }
    ensures each { IfOk result (λ w. All (IsWish (P.rules_of search.now) cache.now.limits) w.items) }
    ensures more { let needed = needed_now P.Search search.now cache.now in
        IfOk result (λ w. All (TellsMore (known_in cache.now) needed) w.items) }
    ensures apart { IfOk result (λ w. AreApart w.items) }
    ensures few { IfOk result (λ w. length w.items ≤ k) }
{
    if k == 0 {
        return Ok(Vec::new(alloc));
    }
    let _ = &cache.limits().cutoff; // its type keeps it in range
    wishes_for(alloc, search, cache, search.ask(), k)
}
