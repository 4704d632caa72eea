//! What is known makes of the present ask of a search, and what that makes likely.
ghost use Rattle.std.specs.Prelude.{◌≡◌, ◌≢◌, ◌++◌, ◌∷◌, [], All, IfOk, OnOk, OnErr};
ghost use Rattle.std.specs.Cmp.Lexicographic.{pointwise};
ghost use Rattle.ils_face.specs.Replies.{Fits};
ghost use Rattle.run_cache.specs.Caches.{known_in};
ghost use Rattle.capping.specs.Verdicts.{verdict_of};
ghost use Rattle.predictor.specs.Wishes.{wishes_of};
ghost use Rattle.board_steps.specs.Numbering.{IsRunnable};
ghost use Rattle.capping.specs.Decisions.{IfReply, IfNeed};
ghost use Rattle.board_steps.specs.BoardVerdicts.{config_of};
ghost use Rattle.board_steps.specs.Steps.{same_wish};
ghost use Rattle.pool_core.specs.OpenBoards.{IsRunnableFor};

use capping::{Verdict, decide};
use ils_face::{Ask, Reply, Search};
use objective::Memory;
use param_space::Config;
use predictor::{Foresight, Wish};
use run_cache::{Cache, Cell};
use std::alloc::Global;

/// What is known makes of the present ask. Takes no memory.
pub(crate) fn verdict_by<P: Search>(search: &Foresight<P>, cache: &Cache) -> Verdict
    requires { cache.now.limits ≡ (search.now.rules).limits }
    ensures value { result ≡ verdict_of cache.now.limits (known_in cache.now) (P.shown search.now.rules search.now.replies).ask }
    ensures fits { IfReply result (Fits (P.shown search.now.rules search.now.replies).ask) }
    ensures runnable { IfNeed result (IsRunnableFor (search.now.rules) (P.shown search.now.rules search.now.replies).ask) }
{
    decide(cache, search.search().ask())
}

/// The configuration of the present ask, which isn't the end.
pub(crate) fn asked_config<P: Search>(search: &Foresight<P>) -> &Config
    requires { (P.shown search.now.rules search.now.replies).ask ≢ Ask.End }
    ensures { result.now ≡ config_of (P.shown search.now.rules search.now.replies).ask }
{
    match search.search().ask() {
        Ask::Full { config, .. } => config,
        Ask::Versus { config, .. } => config,
        Ask::End => unreachable!(),
    }
}

/// The cell of the present ask's configuration at a place.
pub(crate) fn asked_cell<P: Search>(
    alloc: Global,
    search: &Foresight<P>,
    place: u32,
) -> Result<Cell, Memory>
    ensures { IfOk result (λ c. c ≡ record { config = config_of (P.shown search.now.rules search.now.replies).ask; place = place }) }
{
    match search.search().ask() {
        Ask::Full { config, .. } => Cell::at(config, place),
        Ask::Versus { config, .. } => Cell::at(config, place),
        Ask::End => Ok(Cell {
            config: Config::new(Vec::new(alloc)),
            place,
        }),
    }
}

/// The wishes at the present ask, at most k.
pub(crate) fn wishes_now<P: Search>(
    alloc: Global,
    search: &mut Foresight<P>,
    cache: &Cache,
    k: u32,
) -> Result<Vec<Wish>, Memory>
    requires { cache.now.limits ≡ search.old.rules.limits }
    ensures same { search.new ≡ search.old }
    ensures value { let shown = P.shown search.old.rules in
        IfOk result (λ w. w.items ≡ wishes_of shown cache.now.limits (known_in cache.now) search.old.replies k) }
    ensures runnable { IfOk result (λ w. All (λ w. IsRunnable search.old.rules w.cell w.cutoff.0) w.items) }
{
    search.wishes(alloc, cache, k)
}

/// Answers the search, and gives the wishes at the ask that comes, at most k. After want of memory
/// the search is as it was.
pub(crate) fn answer_search<P: Search>(
    alloc: Global,
    search: &mut Foresight<P>,
    cache: &Cache,
    reply: Reply,
    k: u32,
) -> Result<Vec<Wish>, Memory>
    requires limits { cache.now.limits ≡ search.old.rules.limits }
    requires fits { Fits (P.shown search.old.rules search.old.replies).ask reply }
    ensures rules { OnOk result (search.new.rules ≡ search.old.rules) }
    ensures taken { OnOk result (search.new.replies ≡ search.old.replies ++ reply ∷ []) }
    ensures value { let shown = P.shown search.old.rules in
        let replies = search.old.replies ++ reply ∷ [] in
        IfOk result (λ w. w.items ≡ wishes_of shown cache.now.limits (known_in cache.now) replies k) }
    ensures runnable { IfOk result (λ w. All (λ w. IsRunnable search.old.rules w.cell w.cutoff.0) w.items) }
    ensures err { OnErr result (search.new ≡ search.old) }
{
    search.answer(alloc, cache, reply, k)
}

/// Whether the wishes are the same.
pub(crate) fn same_wishes(left: &[Wish], right: &[Wish]) -> bool
    ensures { result ≡ pointwise same_wish left.now right.now }
{
    left == right
}
