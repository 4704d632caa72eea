//! A run that is needed, and which runs aren't wanted beside it.
ghost use Rattle.std.specs.Prelude.{◌≡◌, nat_lt};
ghost use Rattle.board_steps.specs.Tickets;
ghost use Rattle.board_steps.specs.UnwantedRuns;

use crate::tickets::{Kind, LiveTicket};
use objective::Micros;
use param_space::Config;
use predictor::Wish;
use run_cache::Cell;
use std::marker::Model;

/// A run that is needed, seen as its cell and its cutoff.
#[derive(Drop)]
pub struct Needed<'a> {
    /// The configuration.
    pub config: &'a Config,
    /// The place.
    pub place: u32,
    /// The cutoff of the run.
    pub cutoff: Micros,
}

impl<'a> Model for Needed<'a> {
    ghost use Rattle.board_steps.specs.UnwantedRuns.{NeededRun};

    ghost Value = { NeededRun };

    ghost view = { λ n. record { cell = record { config = n.config.now; place = n.place }; cutoff = n.cutoff.0 } };
}

impl<'a> Needed<'a> {
    /// Whether it is of this cell.
    pub fn is_of(&self, cell: &Cell) -> bool
        ensures { result ≡ Tickets.same_cell self.now.cell cell.now }
    {
        self.place == cell.place && self.config.values() == cell.config.values()
    }

    /// Whether its cutoff lies below this one.
    pub fn is_below(&self, cutoff: Micros) -> bool
        ensures { result ≡ nat_lt self.now.cutoff cutoff.0 }
    {
        self.cutoff.0 < cutoff.0
    }
}

/// Whether a cell is wished for.
fn is_wished(wishes: &[Wish], cell: &Cell) -> bool
    ensures { result ≡ UnwantedRuns.is_wished wishes.now cell.now }
{
    wishes.iter().any(|w| *cell == w.cell)
}

/// Whether the run of a live ticket isn't wanted beside a needed one.
#[tactic(auto, unfolding(crate::specs::UnwantedRuns::is_unwanted_beside))]
pub(crate) fn is_unwanted_beside(l: &LiveTicket, wishes: &[Wish], needed: &Needed<'_>) -> bool
    ensures { result ≡ UnwantedRuns.is_unwanted_beside wishes.now needed.now l.now }
{
    if l.ticket.kind != Kind::Ahead {
        return false;
    }
    if needed.is_of(&l.ticket.cell) {
        return needed.is_below(l.ticket.run.cutoff);
    }
    !is_wished(wishes, &l.ticket.cell)
}
