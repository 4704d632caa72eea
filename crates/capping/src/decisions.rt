//! The decision on an ask.
ghost use Rattle.std.specs.Prelude.{◌≡◌, ◌*◌, ◌≤◌, IsSomeAnd, IfSome};
ghost use Rattle.objective.specs.Costs.{Table};
ghost use Rattle.objective.specs.Limits.{max_cutoff, max_runs};
ghost use Rattle.uncapped.specs.Totals.{total_cost, quiet};
ghost use Rattle.ils_face.specs.Replies.{Fits};
ghost use Rattle.ils_face.specs.Traces.{question_of, IsReplyBy};
ghost use Rattle.run_cache.specs.Caches.{known_in, AgreesWith};
ghost use Rattle.capping.specs.Verdicts as verdicts;
ghost use Rattle.capping.specs.Verdicts.{verdict_from, verdict_of};
ghost use Rattle.capping.specs.Decisions.{place_count, bound_of, question, IfReply, IfNeedOf, IfAbortedOf, OnEnded, IsAtMost, IsNeeded, IsDueAt, GoesOn, IsKnownAbort, IsFirstAbort, AreRanged};

use crate::verdicts::Verdict;
use ils_face::{Ask, Reply};
use objective::{Limits, Micros, Sum, cap};
use param_space::Config;
use run_cache::{Cache, Front, Known, spent_over};

/// Whether so much is more than the bound. A tie isn't.
fn is_past(bound: Option<Sum>, spent: Sum) -> bool
    ensures { result ≡ verdicts.is_past (bound_of bound) spent.0 }
{
    match bound {
        Some(bound) => spent.0 > bound.0,
        None => false,
    }
}

/// Whether a cost greater than this time leads past the bound.
fn leads_past(bound: Option<Sum>, spent: Sum, time: Micros) -> bool
    ensures { result ≡ verdicts.leads_past (bound_of bound) spent.0 time.0 }
{
    match bound {
        Some(bound) => bound.0.saturating_sub(spent.0) <= time.0,
        None => false,
    }
}

/// A run is needed at the place, under the cutoff that is left of the bound.
fn need(limits: &Limits, bound: Option<Sum>, place: u32, spent: Sum) -> Verdict
    ensures { result ≡ verdicts.need limits.now (bound_of bound) place spent.0 }
{
    let cutoff = match bound {
        Some(bound) => cap(limits, Sum(bound.0.saturating_sub(spent.0))),
        None => limits.cutoff,
    };
    Verdict::Need { place, cutoff }
}

/// The verdict on places whose costs are all known and sum up to so much.
fn verdict_on_sum(bound: Option<Sum>, spent: Sum) -> Verdict
    ensures { result ≡ verdicts.verdict_on_sum (bound_of bound) spent.0 }
{
    if is_past(bound, spent) {
        Verdict::Reply(Reply::Exceeds)
    } else {
        Verdict::Reply(Reply::Exact(spent))
    }
}

/// The verdict at the first place whose cost isn't known, after those before it cost so much.
fn verdict_next(
    limits: &Limits,
    bound: Option<Sum>,
    place: u32,
    spent: Sum,
    known: Known,
) -> Verdict
    ensures { result ≡ verdicts.verdict_next limits.now (bound_of bound) place spent.0 known }
{
    if is_past(bound, spent) {
        return Verdict::Reply(Reply::Exceeds);
    }
    match known {
        Known::Over(time) if leads_past(bound, spent, time) => Verdict::Reply(Reply::Exceeds),
        Known::Abort => Verdict::Aborted { place },
        Known::Over(_) | Known::Nothing | Known::Exact(_) => need(limits, bound, place, spent),
    }
}

/// The verdict on the places 1 to n, up to a bound, by what is read off of a configuration's row.
fn verdict_by(limits: &Limits, front: &Front<'_>, n: u32, bound: Option<Sum>) -> Verdict
    ensures { result
        ≡ verdicts.verdict_at_front limits.now (bound_of bound) n front.now.sums.now front.now.known }
{
    let done = front.sums.len();
    if n as usize <= done {
        return verdict_on_sum(bound, spent_over(front.sums, n as usize));
    }
    let spent = spent_over(front.sums, done);
    verdict_next(limits, bound, done as u32 + 1, spent, front.known)
}

/// The verdict on the places 1 to n, up to a bound, by what a cache knows of a configuration.
fn verdict_in(cache: &Cache, config: &Config, n: u32, bound: Option<Sum>) -> Verdict
    requires { n ≤ max_runs }
    ensures value { result ≡ verdict_from cache.now.limits (known_in cache.now config.now) (bound_of bound) n 1 0 }
    ensures ranged { AreRanged cache.now.limits (known_in cache.now) (question config.now n (bound_of bound)) }
{
    let limits = cache.limits();
    let _ = &limits.cutoff; // its type keeps it in range
    verdict_by(limits, &cache.at_front(config), n, bound)
}

/// The verdict on an ask, by what a cache knows.
fn verdict_on(cache: &Cache, ask: &Ask) -> Verdict
    requires { place_count ask.now ≤ max_runs }
    ensures value { result ≡ verdict_of cache.now.limits (known_in cache.now) ask.now }
    ensures ranged { IfSome (question_of ask.now) (AreRanged cache.now.limits (known_in cache.now)) }
{
    match ask {
        Ask::Full { config, n } => verdict_in(cache, config, *n, None),
        Ask::Versus { config, n, bound } => verdict_in(cache, config, *n, Some(*bound)),
        Ask::End => Verdict::Ended,
    }
}

/// What the runs known so far make of an ask, which is of at most `MAX_RUNS` pairs.
///
/// It is replied to as soon as no further run can change the reply, which is then that of
/// all its runs in full; a tie is never cut. Else the first run that is needed is named,
/// under the cutoff that is left for it, or one that asked for the end of the tuning. Takes
/// no memory, and walks the places once.
pub fn decide(cache: &Cache, ask: &Ask) -> Verdict
    requires { place_count ask.now ≤ max_runs }
    ensures value { result ≡ verdict_of cache.now.limits (known_in cache.now) ask.now }

    // Whatever is known.
    ensures fits { IfReply result (Fits ask.now) }
    ensures bound { IfReply result (IsAtMost (place_count ask.now * (1000 * max_cutoff))) }
    ensures need { IfNeedOf result ask.now (IsNeeded cache.now.limits (known_in cache.now)) }
    ensures progress { IfNeedOf result ask.now (GoesOn cache.now.limits (known_in cache.now) ask.now) }
    ensures found { IfAbortedOf result ask.now (IsKnownAbort (known_in cache.now)) }
    ensures ended { OnEnded result (ask.now ≡ Ask.End) }

    // For every table with which the cache agrees.
    ensures reply { (T : Table) → AgreesWith T cache.now
        → IfReply result (λ r. IsSomeAnd (question_of ask.now) (IsReplyBy (total_cost cache.now.limits (quiet T)) r)) }
    ensures due { (T : Table) → AgreesWith T cache.now → IfNeedOf result ask.now (IsDueAt cache.now.limits T) }
    ensures aborted { (T : Table) → AgreesWith T cache.now
        → IfAbortedOf result ask.now (IsFirstAbort cache.now.limits T) }
{
    verdict_on(cache, ask)
}
