//! Tickets.
ghost use Rattle.std.specs.Prelude.{◌≡◌, IfOk};
ghost use Rattle.board_steps.specs.Tickets;

use objective::Memory;
use run_cache::Cell;
use wrapper_lines::Run;

/// Why a run is made.
#[derive(Clone, Copy, Debug, PartialEq, Eq)]
pub enum Kind {
    /// The present ask needs it.
    Asked,
    /// It may be needed soon.
    Ahead,
}

/// The leave to make one run.
#[derive(Drop)]
pub struct Ticket {
    /// Its number, from 1.
    pub number: u64,
    /// The cell that is run.
    pub cell: Cell,
    /// The run: the cell's key under a cutoff.
    pub run: Run,
    /// Why it is made.
    pub kind: Kind,
    /// The number of replies that the search had when the ticket was taken.
    pub place: u64,
}

/// A ticket whose run hasn't ended.
#[derive(Drop)]
pub struct LiveTicket {
    /// The ticket.
    pub ticket: Ticket,
    /// Whether its run isn't wanted any more.
    pub marked: bool,
}

impl Ticket {
    /// Whether this is the same ticket.
    #[tactic(auto, unfolding(crate::specs::Tickets::same_ticket))]
    pub fn is(&self, other: &Ticket) -> bool
        ensures { result ≡ Tickets.same_ticket self.now other.now }
    {
        self.number == other.number
            && self.place == other.place
            && self.kind == other.kind
            && self.cell == other.cell
            && self.run.cutoff.0 == other.run.cutoff.0
            && self.run.key == other.run.key
    }

    /// The same ticket.
    pub fn copy(&self) -> Result<Ticket, Memory>
        ensures { IfOk result (λ t. t ≡ self.now) }
    {
        let cell = self.cell.copy()?;
        let run = self.run.copy()?;
        Ok(Ticket {
            number: self.number,
            cell,
            run,
            kind: self.kind,
            place: self.place,
        })
    }
}
