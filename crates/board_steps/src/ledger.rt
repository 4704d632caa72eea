//! The ledger of a board.
ghost use Rattle.std.specs.Prelude.{◌≡◌, ◌+◌, ◌-◌, ◌<◌, ◌≤◌, ◌++◌, suc, [], ◌∷◌, true, false, not, Some, IsSome, IsTrue, IfOk, OnOk, OnErr, option_copied, length, map, nat_lt, ◌||◌, slice_get, slice_set, IsSomeAnd, ◌^◌};
ghost use Rattle.std.specs.Vec.{vec_len, vec_capacity};
ghost use Rattle.std.specs.List.{list_any, sum_by};
ghost use Rattle.indexmap.specs.IndexSet.{spare};
ghost use Rattle.board_steps.specs.Tickets;
ghost use Rattle.board_steps.specs.UnwantedRuns;
ghost use Rattle.board_steps.specs.UnwantedRuns.{all_unwanted};
ghost use Rattle.board_steps.specs.Ledgers;
ghost use Rattle.board_steps.specs.Ledgers.{events_of, events_kept};

use crate::answers::Standing;
use crate::events::Event;
use crate::tickets::{Kind, LiveTicket, Ticket};
use crate::unwanted_runs::{Needed, is_unwanted_beside};
use indexmap::IndexSet;
use objective::Memory;
use param_space::Config;
use plain_text::Items;
use predictor::Wish;
use run_cache::Cell;
use std::alloc::Global;
use std::marker::Model;
use wrapper_lines::Setting;

/// The live tickets of a board, the cells whose run ahead was lost, and the journal.
///
/// Its type keeps the room for what ends the tickets, so only what adds a ticket, resumes or
/// makes room takes memory.
#[derive(Drop)]
pub struct Ledger {
    live: Vec<LiveTicket>,
    lost_ahead: IndexSet<Cell>,
    next: u64,
    stopped: bool,
    journal: Vec<Event>,
    /// The settings of the last ticket, for the next one of its configuration.
    settings: Option<Items<Setting>>,
}

impl Model for Ledger {
    ghost use Rattle.std.specs.Prelude.{◌+◌, ◌-◌, length};
    ghost use Rattle.std.specs.Vec.{vec_capacity};
    ghost use Rattle.indexmap.specs.IndexSet.{spare};
    ghost use Rattle.board_steps.specs.Ledgers.{LedgerState, HasRoom, events_kept};

    ghost Value = { LedgerState };

    ghost view = { λ l. record {
      live = l.live.items;
      lost_ahead = l.lost_ahead.keys;
      next = l.next;
      stopped = l.stopped;
      journal = l.journal.items;
      spare = vec_capacity l.journal - (length l.journal.items + events_kept l.live.items l.stopped);
    } };

    ghost invariant = { λ l. HasRoom (vec_capacity l.journal) (spare l.lost_ahead)
        l.live.items l.next l.stopped l.journal.items };
}

/// Whether a live ticket is of this cell.
#[tactic(auto, unfolding(crate::specs::Tickets::has_ticket))]
pub fn has_ticket(live: &[LiveTicket], cell: &Cell) -> bool
    ensures { result ≡ Tickets.has_ticket live.now cell.now }
{
    live.iter().any(|l| *cell == l.ticket.cell)
}

/// Whether a cell is among these. It costs the same however many they are.
#[tactic(auto, unfolding(crate::specs::Tickets::has_cell))]
fn has_cell(cells: &IndexSet<Cell>, cell: &Cell) -> bool
    ensures { result ≡ Tickets.has_cell cells.now.keys cell.now }
{
    cells.contains(cell)
}

/// Puts a cell to these, for which there is room. Takes no memory.
#[tactic(auto, unfolding(crate::specs::Tickets::has_cell))]
fn add_cell(cells: &mut IndexSet<Cell>, cell: Cell)
    requires { 1 ≤ spare cells.old }
    ensures cells { cells.new.keys ≡ Tickets.with_cell cells.old.keys cell }
    ensures room { spare cells.old ≤ spare cells.new + 1 }
{
    match cells.insert(cell) {
        Ok(_) => {}
        Err(_) => unreachable!(),
    }
}

/// The index of the live ticket with a number, or how many there are.
fn position_of(live: &[LiveTicket], number: u64) -> usize
    ensures value { result ≡ Tickets.position_of live.now number }
    ensures within { result ≤ length live.now }
{
    for i in 0..live.len() {
        if live[i].ticket.number == number {
            return i;
        }
    }
    live.len()
}

/// The live ticket of these that a ticket is of.
fn found_among<'a>(live: &'a [LiveTicket], ticket: &Ticket) -> Option<&'a LiveTicket>
    ensures { option_copied result ≡ Tickets.found_in live.now ticket.now }
{
    let i = position_of(live, ticket.number);
    if i == live.len() {
        return None;
    }
    let l = &live[i];
    if l.ticket.is(ticket) { Some(l) } else { None }
}

/// Takes the live ticket with a number out of these.
#[tactic(auto, unfolding(crate::specs::Tickets::without))]
fn remove(live: &mut Vec<LiveTicket>, number: u64) -> LiveTicket
    requires { IsSome (Tickets.live_at live.old.items number) }
    ensures value { Tickets.live_at live.old.items number ≡ Some result }
    ensures items { live.new.items ≡ Tickets.without live.old.items number }
    ensures len { length live.new.items + 1 ≡ length live.old.items }
    ensures room { sum_by events_of live.new.items + events_of result ≡ sum_by events_of live.old.items }
{
    let i = position_of(live, number);
    live.remove(i)
}

/// Marks all of these.
fn mark_live(live: &mut Vec<LiveTicket>)
    ensures { live.new.items ≡ map Tickets.marked live.old.items }
{
    for i in 0..live.len() {
        live[i].marked = true;
    }
}

/// Marks a live ticket.
fn mark(l: &mut LiveTicket, journal: &mut Vec<Event>)
    requires { length journal.old.items + events_of l.old ≤ vec_capacity journal.old }
    ensures marked { l.new ≡ Tickets.marked_if all_unwanted l.old }
    ensures journal { journal.new.items ≡ journal.old.items ++ Tickets.mark_event all_unwanted l.old }
    ensures room { length journal.new.items + events_of l.new ≤ length journal.old.items + events_of l.old }
    ensures capacity { vec_capacity journal.new ≡ vec_capacity journal.old }
{
    if l.marked {
        return;
    }
    l.marked = true;
    journal.push_reserved(Event::Mark {
        number: l.ticket.number,
    });
}

/// Marks a live ticket where it isn't wanted.
fn mark_unwanted(l: &mut LiveTicket, journal: &mut Vec<Event>, wishes: &[Wish], needed: &Needed<'_>)
    requires { length journal.old.items + events_of l.old ≤ vec_capacity journal.old }
    ensures marked { l.new ≡ Tickets.marked_if (UnwantedRuns.is_unwanted_beside wishes.now needed.now) l.old }
    ensures journal { let is_unwanted = UnwantedRuns.is_unwanted_beside wishes.now needed.now in
        journal.new.items ≡ journal.old.items ++ Tickets.mark_event is_unwanted l.old }
    ensures room { length journal.new.items + events_of l.new ≤ length journal.old.items + events_of l.old }
    ensures capacity { vec_capacity journal.new ≡ vec_capacity journal.old }
{
    if is_unwanted_beside(l, wishes, needed) {
        mark(l, journal);
    }
}

/// Marks each of these that isn't wanted.
fn mark_each_unwanted(
    live: &mut Vec<LiveTicket>,
    journal: &mut Vec<Event>,
    wishes: &[Wish],
    needed: &Needed<'_>,
)
    requires { length journal.old.items + sum_by events_of live.old.items ≤ vec_capacity journal.old }
    ensures marked { let is_unwanted = UnwantedRuns.is_unwanted_beside wishes.now needed.now in
        live.new.items ≡ map (Tickets.marked_if is_unwanted) live.old.items }
    ensures journal { let is_unwanted = UnwantedRuns.is_unwanted_beside wishes.now needed.now in
        journal.new.items ≡ journal.old.items ++ Tickets.mark_events is_unwanted live.old.items }
    ensures room { length journal.new.items + sum_by events_of live.new.items
        ≤ length journal.old.items + sum_by events_of live.old.items }
    ensures capacity { vec_capacity journal.new ≡ vec_capacity journal.old }
{
    for i in 0..live.len() {
        mark_unwanted(&mut live[i], journal, wishes, needed);
    }
}

/// Marks each of these.
fn mark_each(live: &mut Vec<LiveTicket>, journal: &mut Vec<Event>)
    requires { length journal.old.items + sum_by events_of live.old.items ≤ vec_capacity journal.old }
    ensures marked { live.new.items ≡ map (Tickets.marked_if all_unwanted) live.old.items }
    ensures journal { journal.new.items ≡ journal.old.items ++ Tickets.mark_events all_unwanted live.old.items }
    ensures room { length journal.new.items + sum_by events_of live.new.items
        ≤ length journal.old.items + sum_by events_of live.old.items }
    ensures capacity { vec_capacity journal.new ≡ vec_capacity journal.old }
{
    for i in 0..live.len() {
        mark(&mut live[i], journal);
    }
}

impl Ledger {
    /// A ledger without tickets. It has the room for a stop.
    #[tactic(auto, unfolding(crate::specs::Ledgers::events_kept))]
    pub fn new(alloc: Global) -> Result<Ledger, Memory>
        ensures { IfOk result (λ l. l ≡ Ledgers.opening_ledger l.spare) }
    {
        let mut journal = Vec::new(alloc);
        journal.reserve(1)?;
        Ok(Ledger {
            live: Vec::new(alloc),
            lost_ahead: IndexSet::new(alloc),
            next: 1,
            stopped: false,
            journal,
            settings: None,
        })
    }

    /// The live tickets, in the order in which they were taken.
    pub fn live(&self) -> &[LiveTicket]
        ensures { result.now ≡ self.now.live }
    {
        &self.live
    }

    /// Whether a run ahead of this cell was lost.
    pub fn is_lost_ahead(&self, cell: &Cell) -> bool
        ensures { result ≡ Tickets.has_cell self.now.lost_ahead cell.now }
    {
        has_cell(&self.lost_ahead, cell)
    }

    /// The number of the next ticket.
    pub fn next(&self) -> u64
        ensures { result ≡ self.now.next }
    {
        self.next
    }

    /// Whether no tickets are given.
    pub fn stopped(&self) -> bool
        ensures { result ≡ self.now.stopped }
    {
        self.stopped
    }

    /// What happened, oldest first.
    pub fn journal(&self) -> &[Event]
        ensures { result.now ≡ self.now.journal }
    {
        &self.journal
    }

    /// The live ticket that a ticket is of.
    pub fn found(&self, ticket: &Ticket) -> Option<&LiveTicket>
        ensures { option_copied result ≡ Tickets.found_in self.now.live ticket.now }
    {
        found_among(&self.live, ticket)
    }

    /// What the live tickets say of a ticket.
    pub fn standing(&self, ticket: &Ticket) -> Standing
        ensures { result ≡ Tickets.standing_of (Tickets.found_in self.now.live ticket.now) }
    {
        match self.found(ticket) {
            None => Standing::Stranger,
            Some(l) if l.marked => Standing::Marked,
            Some(_) => Standing::Live,
        }
    }

    /// The settings of a live ticket of the configuration, or else of the last ticket.
    pub fn settings_like(&self, config: &Config) -> Option<&Items<Setting>> {
        for l in &self.live {
            if l.ticket.cell.config == *config {
                return Some(&l.ticket.run.key.settings);
            }
        }
        self.settings.as_ref()
    }

    /// Makes room for one event beside those that are kept.
    #[tactic(auto, unfolding(crate::specs::Ledgers::events_kept))]
    pub fn make_room(&mut self) -> Result<(), Memory>
        ensures same { self.new ≡ record self.old { spare = self.new.spare } }
        ensures room { OnOk result (1 ≤ self.new.spare) }
    {
        let kept = self.kept();
        self.journal.reserve(kept + 1)?;
        Ok(())
    }

    /// The events for which the journal keeps room.
    #[tactic(auto, unfolding(crate::specs::Ledgers::events_kept))]
    fn kept(&self) -> usize
        ensures kept { result ≡ events_kept self.now.live self.now.stopped }
        ensures few { result + 3 < 2 ^ 64 }
    {
        let mut kept = usize::from(!self.stopped);
        for l in &self.live {
            kept += if l.marked { 1 } else { 2 };
        }
        kept
    }

    /// Puts down that the board advanced. Takes no memory.
    #[tactic(auto, unfolding(crate::specs::Ledgers::events_kept))]
    pub fn advance(&mut self)
        requires { 1 ≤ self.old.spare }
        ensures { self.new ≡ Ledgers.with_advance self.old self.new.spare }
    {
        self.journal.push_reserved(Event::Advance);
    }

    /// Gives a ticket with the next number; `cell` is its cell. After want of memory no ticket is given.
    #[tactic(auto, unfolding(crate::specs::Ledgers::events_kept))]
    pub fn give(&mut self, ticket: Ticket, cell: Cell) -> Result<(), Memory>
        requires number { ticket.number ≡ self.old.next }
        requires cell { cell ≡ ticket.cell }
        ensures ok { OnOk result (self.new ≡ Ledgers.with_ticket self.old ticket self.new.spare) }
        ensures err { OnErr result (self.new ≡ record self.old { spare = self.new.spare }) }
    {
        let kept = self.kept();
        self.journal.reserve(kept + 3)?;
        self.lost_ahead.reserve(self.live.len() + 1)?;
        self.live.reserve(1)?;
        let settings = ticket.run.key.settings.copy()?;
        let (number, kind, cutoff, asked_at) = (
            ticket.number,
            ticket.kind,
            ticket.run.cutoff,
            ticket.place,
        );
        self.journal.push_reserved(Event::Take {
            number,
            kind,
            cell,
            cutoff,
            asked_at,
        });
        self.live.push_reserved(LiveTicket {
            ticket,
            marked: false,
        });
        self.next += 1;
        self.settings = Some(settings);
        Ok(())
    }

    /// Ends a live ticket by an event. Takes no memory.
    #[tactic(auto, unfolding(crate::specs::Ledgers::events_kept))]
    pub fn end(&mut self, number: u64, event: Event)
        requires { IsSome (Tickets.live_at self.old.live number) }
        ensures { self.new ≡ Ledgers.with_end self.old number event self.new.spare }
    {
        let _ended = remove(&mut self.live, number);
        self.journal.push_reserved(event);
    }

    /// Ends a live ticket whose run couldn't be made: a run ahead isn't made ahead again. Takes no memory.
    #[tactic(auto, unfolding(crate::specs::Ledgers::events_kept))]
    pub fn lose(&mut self, number: u64)
        requires { IsSome (Tickets.live_at self.old.live number) }
        ensures { IsSomeAnd (Tickets.live_at self.old.live number)
            (λ l. self.new ≡ Ledgers.with_loss self.old number l.ticket self.new.spare) }
    {
        let LiveTicket { ticket, marked: _ } = remove(&mut self.live, number);
        if ticket.kind == Kind::Ahead {
            add_cell(&mut self.lost_ahead, ticket.cell);
        }
        self.journal.push_reserved(Event::Lost { number });
    }

    /// Marks every live ticket, and tells how many newly. Takes no memory.
    #[tactic(auto, unfolding(crate::specs::Ledgers::events_kept))]
    pub fn mark_all(&mut self) -> usize
        ensures count { result ≡ length (Tickets.mark_events all_unwanted self.old.live) }
        ensures marked { self.new ≡ Ledgers.with_marks self.old all_unwanted self.new.spare }
    {
        let before = self.journal.len();
        mark_each(&mut self.live, &mut self.journal);
        self.journal.len() - before
    }

    /// Marks the live tickets that aren't wanted beside a needed run, and tells how many newly.
    /// Takes no memory.
    #[tactic(auto, unfolding(crate::specs::Ledgers::events_kept))]
    pub fn mark_beside(&mut self, wishes: &[Wish], needed: &Needed<'_>) -> usize
        ensures count { let is_unwanted = UnwantedRuns.is_unwanted_beside wishes.now needed.now in
            result ≡ length (Tickets.mark_events is_unwanted self.old.live) }
        ensures marked { let is_unwanted = UnwantedRuns.is_unwanted_beside wishes.now needed.now in
            self.new ≡ Ledgers.with_marks self.old is_unwanted self.new.spare }
    {
        let before = self.journal.len();
        mark_each_unwanted(&mut self.live, &mut self.journal, wishes, needed);
        self.journal.len() - before
    }

    /// Marks every live ticket and gives no more. Takes no memory.
    #[tactic(auto, using(crate::proofs::Rooms::events_marked), unfolding(crate::specs::Ledgers::events_kept))]
    pub fn stop(&mut self)
        requires { self.old.stopped ≡ false }
        ensures { self.new ≡ Ledgers.with_stop self.old self.new.spare }
    {
        mark_live(&mut self.live);
        self.stopped = true;
        self.journal.push_reserved(Event::Stop);
    }

    /// Goes on without live tickets, with the room for the next stop.
    #[tactic(auto, unfolding(crate::specs::Ledgers::events_kept))]
    pub fn resume(&mut self) -> Result<(), Memory>
        ensures ok { OnOk result (self.new ≡ Ledgers.with_resume self.old self.new.spare) }
        ensures err { OnErr result (self.new ≡ record self.old { spare = self.new.spare }) }
    {
        let kept = self.kept();
        self.journal.reserve(kept + 2)?;
        self.live.clear();
        self.stopped = false;
        self.journal.push_reserved(Event::Resume);
        Ok(())
    }
}
