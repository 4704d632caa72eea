//! The board.
ghost use Rattle.std.specs.Prelude.{◌≡◌, ◌≢◌, [], All, IfOk, IsSome, length};
ghost use Rattle.std.specs.List.{Contains};
ghost use Rattle.run_cache.specs.Caches.{known_in};
ghost use Rattle.board_steps.specs.Boards.{opening, plain_board};
ghost use Rattle.board_steps.specs.BoardInvariant.{BoardInvariant};
ghost use Rattle.capping.specs.Decisions.{IfReply, IfNeed};
ghost use Rattle.board_steps.specs.BoardVerdicts.{board_verdict_of, ask_on, IfOpen};
ghost use Rattle.ils_face.specs.Replies.{Fits};
ghost use Rattle.ils_face.specs.Rules.{AreRules};
ghost use Rattle.board_steps.specs.Ledgers.{unmarked};
ghost use Rattle.board_steps.specs.Tickets.{found_in, marked, standing_of};
ghost use Rattle.pool_core.specs.DecidedAsks.{IsVerdict};
ghost use Rattle.pool_core.specs.Endings.{IsEnding, IsTrueAbort, ShowsTruth};
ghost use Rattle.pool_core.specs.OpenBoards.{IsRunnableAt};

use crate::present_asks::verdict_by;
use board_steps::{BoardVerdict, Event, Ledger, Problem, Standing, Ticket, Truth};
use capping::Verdict;
use ils_face::{Ask, Search};
use objective::{Memory, World};
use outside::Spawner;
use predictor::{Foresight, Wish};
use run_cache::{Cache, Cell};
use std::alloc::Global;
use std::marker::{Model, PhantomData};

/// Whether a search is at its end.
pub enum Ending<'a> {
    /// It isn't.
    Running,
    /// It is.
    Finished,
    /// It ended at this cell, whose run asked for the end.
    Aborted(&'a Cell),
}

/// A search with what is known of runs, the tickets that seats run by, and a journal.
///
/// Contracts see it as what it holds; its type keeps what `is_board` tells. The spawners' type serves its
/// truth alone.
#[derive(Drop)]
pub struct Board<P: Search, S: Spawner> {
    pub(crate) problem: Problem,
    pub(crate) search: Foresight<P>,
    pub(crate) cache: Cache,
    pub(crate) wishes: Vec<Wish>,
    /// The verdict on the present ask, once it and the wishes were made by all that is known.
    pub(crate) decided: Option<Verdict>,
    pub(crate) aborted: Option<Cell>,
    pub(crate) ledger: Ledger,
    pub(crate) of: PhantomData<S>,
}

impl<P: Search, S: Spawner> Model for Board<P, S> {
    ghost use Rattle.board_steps.specs.Boards.{BoardState, state_of};
    ghost use Rattle.pool_core.specs.DecidedAsks.{IsBoard};

    ghost Value = { BoardState };

    ghost view = { λ b. state_of b.problem b.search.replies b.cache b.wishes.items b.aborted b.ledger };

    ghost invariant = { λ b. IsBoard P.shown P.plain S.truth b.search.rules b.decided (view b) };
}

/// A search by the rules of a problem.
fn open_search<P: Search>(alloc: Global, problem: &Problem) -> Result<Foresight<P>, Memory>
    ensures rules { IfOk result (λ s. s.rules ≡ problem.now.rules) }
    ensures none { IfOk result (λ s. s.replies ≡ []) }
    ensures ruled { IfOk result (λ s. AreRules s.rules) }
{
    let search = P::open(alloc, &problem.rules)?;
    Ok(Foresight::new(search))
}

/// A cache under the limits of a problem.
fn open_cache(alloc: Global, problem: &Problem) -> Cache
    ensures { result ≡ record { limits = problem.now.rules.limits; conflicts = 0; rows = [] } }
{
    Cache::new(alloc, problem.rules.limits)
}

impl<P: Search, S: Spawner> Board<P, S> {
    /// The opening board of a problem. It has the room for a stop.
    pub fn open(alloc: Global, problem: Problem) -> Result<Board<P, S>, Memory>
        ensures board { IfOk result (λ b. plain_board b ≡ opening problem) }
        ensures invariant { IfOk result (BoardInvariant P.shown P.plain S.truth) }
    {
        let search = open_search(alloc, &problem)?;
        let cache = open_cache(alloc, &problem);
        let ledger = Ledger::new(alloc)?;
        Ok(Board {
            problem,
            search,
            cache,
            wishes: Vec::new(alloc),
            decided: None,
            aborted: None,
            ledger,
            of: PhantomData,
        })
    }

    /// What holds of each board.
    pub fn is_board(&self)
        ensures { BoardInvariant P.shown P.plain S.truth self.now }
    {
        let _ = &self.problem;
    }

    /// What is tuned.
    pub fn problem(&self) -> &Problem
        ensures { result.now ≡ self.now.problem }
    {
        &self.problem
    }

    /// The search.
    pub fn search(&self) -> &P
        ensures rules { P.rules_of result.now ≡ self.now.problem.rules }
        ensures replies { P.replies_of result.now ≡ self.now.replies }
    {
        self.search.search()
    }

    /// What is known.
    pub fn cache(&self) -> &Cache
        ensures { result.now ≡ self.now.cache }
    {
        &self.cache
    }

    /// The number of live tickets.
    pub fn live(&self) -> usize
        ensures { result ≡ length self.now.live }
    {
        self.ledger.live().len()
    }

    /// What happened, oldest first.
    pub fn journal(&self) -> &[Event]
        ensures { result.now ≡ self.now.journal }
    {
        self.ledger.journal()
    }

    /// What the board says of a ticket. Takes no memory.
    pub fn standing(&self, ticket: &Ticket) -> Standing
        ensures value { result ≡ standing_of (found_in self.now.live ticket.now) }
        ensures live { result ≡ Standing.Live → Contains self.now.live (unmarked ticket.now) }
        ensures marked { result ≡ Standing.Marked → Contains self.now.live (marked (unmarked ticket.now)) }
        ensures stranger { result ≡ Standing.Stranger → All (λ l. l.ticket ≢ ticket.now) self.now.live }
    {
        self.is_board(); // live tickets have different numbers
        self.ledger.standing(ticket)
    }

    /// Whether the search is at its end. Where the truth is told, the entries that are shown are at
    /// any time the first ones of the procedure over it, where each abort counts as unsolved; at the
    /// end they are all of them, and after an abort the procedure's own are the first of them. The
    /// run of a cell that it ended at is then the first one of the present ask that aborts. Takes no
    /// memory.
    pub fn ending(&self) -> Ending<'_>
        ensures ending { IsEnding P.shown self.now result }
        ensures shows { IsSome S.truth → ShowsTruth P.shown P.plain S.truth self.now result }
        ensures aborts { let truth = ⟦<Truth<S> as World>⟧.outcome self.now.problem in
            IsSome S.truth → IsTrueAbort P.shown truth self.now result }
    {
        self.is_board();
        self.present_ending()
    }

    /// Whether the search is at its end, by its present ask.
    fn present_ending(&self) -> Ending<'_>
        ensures { IsEnding P.shown self.now result }
    {
        match &self.aborted {
            Some(cell) => Ending::Aborted(cell),
            None => match self.search.search().ask() {
                Ask::End => Ending::Finished,
                _ => Ending::Running,
            },
        }
    }

    /// Where the board stands.
    pub(crate) fn board_verdict(&self) -> BoardVerdict
        ensures value { result ≡ board_verdict_of P.shown (plain_board self.now) }
        ensures fits { IfOpen result (λ v. IfReply v (Fits (ask_on P.shown (plain_board self.now)))) }
        ensures runnable { IfOpen result (λ v. IfNeed v (IsRunnableAt P.shown self.now)) }
    {
        if self.ledger.stopped() {
            return BoardVerdict::Stopped;
        }
        if self.aborted.is_some() {
            return BoardVerdict::Aborted;
        }
        BoardVerdict::Open(self.verdict())
    }

    /// What is known makes of the present ask, which is decided once after each thing that was learnt.
    fn verdict(&self) -> Verdict
        ensures { IsVerdict P.shown self.now.problem.rules self.now.replies (known_in self.now.cache) result }
    {
        match self.decided {
            Some(verdict) => verdict,
            None => verdict_by(&self.search, &self.cache),
        }
    }
}
