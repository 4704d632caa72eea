//! The step that gives a ticket.
ghost use Rattle.std.specs.Prelude.{◌≡◌, ◌≤◌, false, IfOk, OnOk, OnErr, IfSome, length};
ghost use Rattle.std.specs.List.{find, position_or_len};
ghost use Rattle.objective.specs.Limits.{max_runs};
ghost use Rattle.board_steps.specs.Boards.{plain_board};
ghost use Rattle.board_steps.specs.Numbering.{IsRunnable};
ghost use Rattle.board_steps.specs.BoardVerdicts;
ghost use Rattle.board_steps.specs.Steps.{after_take, is_free, taken_on, ticket_for};
ghost use Rattle.board_steps.specs.Tickets;
ghost use Rattle.pool_core.specs.OpenBoards.{IsRunnableAt, StandsAt};

use crate::board::Board;
use crate::present_asks::asked_cell;
use board_steps::{BoardVerdict, Kind, Taken, Ticket, has_ticket};
use capping::Verdict;
use ils_face::Search;
use objective::{Memory, Micros};
use outside::Spawner;
use predictor::Wish;
use run_cache::Cell;
use wrapper_lines::Run;

impl<P: Search, S: Spawner> Board<P, S> {
    /// Gives a ticket: for the needed run, or where that is being made for one that may be needed
    /// soon. After want of memory no ticket was given; the cache may have a further place.
    pub fn take(&mut self) -> Result<Taken, Memory>
        ensures answer { IfOk result (λ t. t ≡ taken_on P.shown (plain_board self.old)) }
        ensures board { OnOk result (plain_board self.new ≡ after_take P.shown (plain_board self.old)) }
        ensures err { OnErr result (plain_board self.new ≡ plain_board self.old) }
    {
        match self.board_verdict() {
            BoardVerdict::Stopped => Ok(Taken::Stopped),
            BoardVerdict::Aborted => Ok(Taken::Ended),
            BoardVerdict::Open(Verdict::Ended) => Ok(Taken::Ended),
            BoardVerdict::Open(Verdict::Reply(_)) => Ok(Taken::Decided),
            BoardVerdict::Open(Verdict::Aborted { .. }) => Ok(Taken::Decided),
            BoardVerdict::Open(Verdict::Need { place, cutoff }) => self.take_needed(place, cutoff),
        }
    }

    /// Gives a ticket where a run is needed.
    fn take_needed(&mut self, place: u32, cutoff: Micros) -> Result<Taken, Memory>
        requires stands { StandsAt P.shown self.old (Verdict.Need place cutoff) }
        requires runnable { IsRunnableAt P.shown self.old place cutoff.0 }
        ensures answer { IfOk result (λ t. t ≡ taken_on P.shown (plain_board self.old)) }
        ensures board { OnOk result (plain_board self.new ≡ after_take P.shown (plain_board self.old)) }
        ensures err { OnErr result (plain_board self.new ≡ plain_board self.old) }
    {
        let needed = self.needed_cell(place)?;
        if !self.has_ticket(&needed) {
            return self.give(Kind::Asked, needed, cutoff);
        }
        match self.free_wish(&needed)? {
            None => Ok(Taken::Idle),
            Some(wish) => self.give(Kind::Ahead, wish.cell, wish.cutoff),
        }
    }

    /// The cell of the present ask at a place.
    fn needed_cell(&self, place: u32) -> Result<Cell, Memory>
        ensures { IfOk result (λ c. c ≡ BoardVerdicts.asked_cell P.shown (plain_board self.now) place) }
    {
        asked_cell(*self.wishes.allocator(), &self.search, place)
    }

    /// Whether a live ticket is of a cell.
    fn has_ticket(&self, cell: &Cell) -> bool
        ensures { result ≡ Tickets.has_ticket self.now.live cell.now }
    {
        has_ticket(self.ledger.live(), cell)
    }

    /// Whether a seat may run ahead for a wish, beside the needed cell.
    #[tactic(auto, unfolding(board_steps::specs::Steps::is_free, board_steps::specs::Boards::plain_board))]
    fn is_free(&self, needed: &Cell, wish: &Wish) -> bool
        ensures { result ≡ is_free (plain_board self.now) needed.now wish.now }
    {
        !has_ticket(self.ledger.live(), &wish.cell)
            && !self.ledger.is_lost_ahead(&wish.cell)
            && *needed != wish.cell
            && !self.cache.known(&wish.cell).is_settled(wish.cutoff)
    }

    /// The place of the first of these wishes that a seat may run ahead for, or how many they are.
    fn first_free(&self, wishes: &[Wish], needed: &Cell) -> usize
        ensures value { result ≡ position_or_len (is_free (plain_board self.now) needed.now) wishes.now }
        ensures within { result ≤ length wishes.now }
    {
        for i in 0..wishes.len() {
            if self.is_free(needed, &wishes[i]) {
                return i;
            }
        }
        wishes.len()
    }

    /// The first wish that a seat may run ahead for.
    fn free_wish(&self, needed: &Cell) -> Result<Option<Wish>, Memory>
        ensures value { IfOk result (λ w. w ≡ find (is_free (plain_board self.now) needed.now) self.now.wishes) }
        ensures runnable { IfOk result (λ w. IfSome w (λ w. IsRunnable self.now.problem.rules w.cell w.cutoff.0)) }
        ensures free { IfOk result (λ w. IfSome w (λ w. Tickets.has_ticket self.now.live w.cell ≡ false)) }
    {
        let wishes = self.wishes.as_slice();
        let i = self.first_free(wishes, needed);
        if i == wishes.len() {
            return Ok(None);
        }
        Ok(Some(wishes[i].copy()?))
    }

    /// The ticket for a cell under a cutoff.
    #[tactic(auto, unfolding(board_steps::specs::Steps::ticket_for, board_steps::specs::Boards::plain_board))]
    fn ticket_for(&self, kind: Kind, cell: Cell, cutoff: Micros) -> Result<Ticket, Memory>
        requires { IsRunnable self.now.problem.rules cell cutoff.0 }
        ensures value { IfOk result (λ t. t ≡ ticket_for (plain_board self.now) kind cell cutoff.0) }
        ensures few { self.now.problem.rules.max_runs ≤ max_runs }
    {
        let _ = &self.problem.rules.max_runs; // its type keeps it in range
        let earlier = self.ledger.settings_like(&cell.config);
        let alloc = *self.wishes.allocator();
        let key = self.problem.key_like(alloc, &cell, earlier)?;
        Ok(Ticket {
            number: self.ledger.next(),
            cell,
            run: Run { key, cutoff },
            kind,
            place: self.search.search().answers(),
        })
    }

    /// Gives the ticket for a cell under a cutoff, with the places that its end needs.
    fn give(&mut self, kind: Kind, cell: Cell, cutoff: Micros) -> Result<Taken, Memory>
        requires offered { let board = plain_board self.old in
            taken_on P.shown board ≡ Taken.Ticket (ticket_for board kind cell cutoff.0) }
        requires running { self.old.stopped ≡ false }
        requires alone { Tickets.has_ticket self.old.live cell ≡ false }
        requires runnable { IsRunnable self.old.problem.rules cell cutoff.0 }
        ensures answer { IfOk result (λ t. t ≡ taken_on P.shown (plain_board self.old)) }
        ensures board { OnOk result (plain_board self.new ≡ after_take P.shown (plain_board self.old)) }
        ensures err { OnErr result (plain_board self.new ≡ plain_board self.old) }
    {
        let ticket = self.ticket_for(kind, cell, cutoff)?;
        let kept = ticket.copy()?;
        let cell = ticket.cell.copy()?;
        self.cache.reserve(&cell)?;
        self.ledger.give(kept, cell)?;
        Ok(Taken::Ticket(ticket))
    }
}
