//! What is known of one configuration.
ghost use Rattle.std.specs.Prelude.{◌≡◌, ◌≤◌, ◌-◌, ◌+◌, suc, [], All, length, slice_set, IfOk, OnOk, OnErr};
ghost use Rattle.std.specs.Vec.{vec_capacity};
ghost use Rattle.objective.specs.Limits.{max_runs};
ghost use Rattle.run_cache.specs.Caches.{known_at, grown};
ghost use Rattle.run_cache.specs.Fronts.{IsLow, IsSummable, IsBegun, sums_of, max_cost};

use crate::front::{Front, spent_over};
use crate::known::{Known, known_next};
use objective::{Memory, Sum, add};
use std::alloc::Global;
use std::marker::Model;

/// What is known of a configuration by place, from place 1 on, and the sums over its leading
/// exact places. Contracts see it as the list of what is known.
#[derive(Drop)]
pub(crate) struct Row {
    places: Vec<Known>,
    sums: Vec<Sum>,
}

impl Model for Row {
    ghost use Rattle.std.specs.Prelude.{List};
    ghost use Rattle.std.specs.Vec.{vec_capacity};
    ghost use Rattle.run_cache.specs.declared.known.Known.{Known};
    ghost use Rattle.run_cache.specs.Fronts.{IsSummed};

    ghost Value = { List Known };

    ghost view = { λ r. r.places.items };

    ghost invariant = { λ r. IsSummed r.places.items r.sums.items (vec_capacity r.sums) };
}

/// Makes room for so many items. It grows by an eighth at least, so that places made one by one
/// don't copy the row each time, and little of it is left empty.
fn make_room<T: Drop>(items: &mut Vec<T>, wanted: usize) -> Result<(), Memory>
    requires { wanted ≤ max_runs }
    ensures items { items.new.items ≡ items.old.items }
    ensures room { OnOk result (wanted ≤ vec_capacity items.new) }
    ensures more { vec_capacity items.old ≤ vec_capacity items.new }
{
    let room = items.capacity();
    if room < wanted {
        let most = wanted.max(room + room / 8);
        items.reserve_exact(most.saturating_sub(items.len()))?;
    }
    Ok(())
}

/// Puts down the sums up to the exact places that come after those that are summed.
fn catch_up(places: &[Known], sums: &mut Vec<Sum>)
    requires summable { IsSummable places.now }
    requires begun { IsBegun places.now sums.old.items }
    requires room { length places.now ≤ vec_capacity sums.old }
    ensures sums { sums.new.items ≡ sums_of places.now }
    ensures room { vec_capacity sums.new ≡ vec_capacity sums.old }
{
    for done in sums.len()..places.len() {
        let Known::Exact(cost) = places[done] else {
            return;
        };
        let spent = spent_over(sums, done);
        sums.push_reserved(add(spent, cost));
    }
}

impl Row {
    /// A row that has this place.
    pub(crate) fn with(alloc: Global, place: u32) -> Result<Row, Memory>
        requires { place ≤ max_runs }
        ensures { IfOk result (λ r. r ≡ grown place []) }
    {
        let mut row = Row {
            places: Vec::new(alloc),
            sums: Vec::new(alloc),
        };
        row.grow(place)?;
        Ok(row)
    }

    /// What is known by place.
    pub(crate) fn places(&self) -> &[Known]
        ensures { result.now ≡ self.now }
    {
        self.places.as_slice()
    }

    /// What the row keeps of its leading exact places.
    pub(crate) fn at_front(&self) -> Front<'_>
        ensures sums { result.sums.now ≡ sums_of self.now }
        ensures known { result.known ≡ known_at self.now (suc (length (sums_of self.now))) }
        ensures few { length (sums_of self.now) ≤ max_runs }
    {
        let sums = self.sums.as_slice();
        Front {
            sums,
            known: known_next(self.places(), sums.len() as u32),
        }
    }

    /// Makes the row have this place, with room for its sum. What is known stays.
    pub(crate) fn grow(&mut self, place: u32) -> Result<(), Memory>
        requires { place ≤ max_runs }
        ensures ok { OnOk result (self.new ≡ grown place self.old) }
        ensures err { OnErr result (self.new ≡ self.old) }
    {
        let wanted = place as usize;
        if wanted <= self.places.len() {
            return Ok(());
        }
        make_room(&mut self.sums, wanted)?;
        make_room(&mut self.places, wanted)?;
        self.places.resize(wanted, Known::Nothing)?;
        Ok(())
    }

    /// Puts down what is known at a place. The sums before it stay, and those from it on are
    /// made anew. Takes no memory.
    pub(crate) fn set(&mut self, place: u32, known: Known)
        requires from_one { 1 ≤ place }
        requires within { place ≤ length self.old }
        requires low { IsLow known }
        ensures { self.new ≡ slice_set self.old (place - 1) known }
    {
        let done = (place - 1) as usize;
        self.places[done] = known;
        self.sums.truncate(done);
        catch_up(&self.places, &mut self.sums);
    }
}
