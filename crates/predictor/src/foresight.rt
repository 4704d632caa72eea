//! A search that is looked ahead.
ghost use Rattle.std.specs.Prelude.{◌≡◌, ◌++◌, [], ◌∷◌, All, IfOk, IfSome, OnOk, OnErr};
ghost use Rattle.ils_face.specs.Replies.{Fits};
ghost use Rattle.run_cache.specs.Caches.{known_in};
ghost use Rattle.predictor.specs.Foresights.{BeginsAt, after_reply};
ghost use Rattle.predictor.specs.Promises.{IsWish};
ghost use Rattle.predictor.specs.Wishes.{wishes_of};

use crate::look_ahead::LookAhead;
use crate::prediction::{has_bound, wishes_at_once};
use crate::wish::Wish;
use ils_face::{Reply, Search};
use objective::Memory;
use run_cache::Cache;
use std::alloc::Global;
use std::marker::Model;

/// The replies, at most, that a search takes while a copy of it is kept. Then the copy is let go, so that
/// what the two share comes together again in the search.
const REPLIES_APART: u32 = 64;

/// A look ahead with the wishes at its first ask.
#[derive(Drop)]
struct Outlook<P: Search> {
    look_ahead: LookAhead<P>,
    wishes: Vec<Wish>,
}

/// A search, and how far it was looked ahead of it.
///
/// Contracts see the search alone. What a look ahead found is kept, so the next one only goes on from
/// there where its steps still hold.
#[derive(Drop)]
pub struct Foresight<P: Search> {
    search: P,
    look_ahead: Option<LookAhead<P>>,
    /// The replies since no copy was about.
    apart: u32,
}

impl<P: Search> Model for Foresight<P> {
    ghost use Rattle.std.specs.Prelude.{IfSome};
    ghost use Rattle.predictor.specs.Foresights.{SearchState, BeginsAt};

    ghost Value = { SearchState };

    ghost view = { λ f. record { rules = P.rules_of f.search; replies = P.replies_of f.search } };

    ghost invariant = { λ f. IfSome f.look_ahead (BeginsAt (view f)) };
}

impl<P: Search> Foresight<P> {
    /// This search, before it's looked ahead. Takes no memory.
    pub fn new(search: P) -> Foresight<P>
        ensures { result ≡ record { rules = P.rules_of search; replies = P.replies_of search } }
    {
        Foresight {
            search,
            look_ahead: None,
            apart: 0,
        }
    }

    /// The search.
    pub fn search(&self) -> &P
        ensures rules { P.rules_of result.now ≡ self.now.rules }
        ensures replies { P.replies_of result.now ≡ self.now.replies }
    {
        &self.search
    }

    /// The wishes at the present ask, at most k, as `wishes` gives them. Fails only for want of memory.
    pub fn wishes(&mut self, alloc: Global, cache: &Cache, k: u32) -> Result<Vec<Wish>, Memory>
        ensures same { self.new ≡ self.old }
        ensures value { let shown = P.shown self.old.rules in
            let wished = wishes_of shown cache.now.limits (known_in cache.now) self.old.replies k in
            IfOk result (λ w. w.items ≡ wished) }
        ensures each { IfOk result (λ w. All (IsWish self.old.rules cache.now.limits) w.items) }
    {
        let _ = self.search.ask(); // it tells what the replies so far are
        let _ = &cache.limits().cutoff; // its type keeps it in range
        self.look(alloc, cache, k)
    }

    /// The wishes at the present ask, by a look ahead where it has a bound.
    fn look(&mut self, alloc: Global, cache: &Cache, k: u32) -> Result<Vec<Wish>, Memory>
        ensures same { self.new ≡ self.old }
        ensures value { let shown = P.shown self.old.rules in
            let wished = wishes_of shown cache.now.limits (known_in cache.now) self.old.replies k in
            IfOk result (λ w. w.items ≡ wished) }
    {
        if k == 0 {
            return Ok(Vec::new(alloc));
        }
        if !has_bound(self.search.ask()) {
            return wishes_at_once(alloc, cache, self.search.ask(), k);
        }
        match self.kept_wishes(alloc, cache, k)? {
            Some(wishes) => Ok(wishes),
            None => self.new_wishes(alloc, cache, k),
        }
    }

    /// The wishes by what was looked ahead before, where that still holds; else it is let go.
    fn kept_wishes(
        &mut self,
        alloc: Global,
        cache: &Cache,
        k: u32,
    ) -> Result<Option<Vec<Wish>>, Memory>
        ensures same { self.new ≡ self.old }
        ensures value { let shown = P.shown self.old.rules in
            let wished = wishes_of shown cache.now.limits (known_in cache.now) self.old.replies k in
            IfOk result (λ found. IfSome found (λ w. w.items ≡ wished)) }
    {
        let Some(mut look_ahead) = self.look_ahead.take() else {
            return Ok(None);
        };
        let Some(wishes) = look_ahead.wishes(alloc, cache, k)? else {
            return Ok(None);
        };
        self.look_ahead = Some(look_ahead);
        Ok(Some(wishes))
    }

    /// The wishes by a new look ahead, which is kept.
    fn new_wishes(&mut self, alloc: Global, cache: &Cache, k: u32) -> Result<Vec<Wish>, Memory>
        ensures same { self.new ≡ self.old }
        ensures value { let shown = P.shown self.old.rules in
            let wished = wishes_of shown cache.now.limits (known_in cache.now) self.old.replies k in
            IfOk result (λ w. w.items ≡ wished) }
    {
        let mut look_ahead = LookAhead::new(alloc, self.search.copy()?);
        let wishes = look_ahead.first_wishes(alloc, cache, k)?;
        self.look_ahead = Some(look_ahead);
        Ok(wishes)
    }

    /// Answers the search, and gives the wishes at the ask that comes, at most k. After want of memory
    /// the search is as it was.
    pub fn answer(
        &mut self,
        alloc: Global,
        cache: &Cache,
        reply: Reply,
        k: u32,
    ) -> Result<Vec<Wish>, Memory>
        requires { Fits (P.shown self.old.rules self.old.replies).ask reply }
        ensures taken { OnOk result (self.new ≡ after_reply self.old reply) }
        ensures value { let shown = P.shown self.old.rules in
            let replies = self.old.replies ++ reply ∷ [] in
            let wished = wishes_of shown cache.now.limits (known_in cache.now) replies k in
            IfOk result (λ w. w.items ≡ wished) }
        ensures each { IfOk result (λ w. All (IsWish self.old.rules cache.now.limits) w.items) }
        ensures err { OnErr result (self.new ≡ self.old) }
    {
        let _ = self.search.ask(); // it tells what the replies so far are
        let _ = &cache.limits().cutoff; // its type keeps it in range
        self.go_on(alloc, cache, reply, k)
    }

    /// Answers the search, with a look ahead from where it comes.
    fn go_on(
        &mut self,
        alloc: Global,
        cache: &Cache,
        reply: Reply,
        k: u32,
    ) -> Result<Vec<Wish>, Memory>
        requires { Fits (P.shown self.old.rules self.old.replies).ask reply }
        ensures taken { OnOk result (self.new ≡ after_reply self.old reply) }
        ensures value { let shown = P.shown self.old.rules in
            let replies = self.old.replies ++ reply ∷ [] in
            let wished = wishes_of shown cache.now.limits (known_in cache.now) replies k in
            IfOk result (λ w. w.items ≡ wished) }
        ensures err { OnErr result (self.new ≡ self.old) }
    {
        if k == 0 {
            self.look_ahead = None;
            self.search.answer(reply)?;
            return Ok(Vec::new(alloc));
        }
        let Outlook { look_ahead, wishes } = self.look_after(alloc, cache, reply, k)?;
        self.take(reply, look_ahead)?;
        Ok(wishes)
    }

    /// Looks ahead from where the search comes by a reply.
    fn look_after(
        &mut self,
        alloc: Global,
        cache: &Cache,
        reply: Reply,
        k: u32,
    ) -> Result<Outlook<P>, Memory>
        requires { Fits (P.shown self.old.rules self.old.replies).ask reply }
        ensures same { self.new ≡ self.old }
        ensures begins { IfOk result (λ o. BeginsAt (after_reply self.old reply) o.look_ahead) }
        ensures value { let shown = P.shown self.old.rules in
            let replies = self.old.replies ++ reply ∷ [] in
            let wished = wishes_of shown cache.now.limits (known_in cache.now) replies k in
            IfOk result (λ o. o.wishes.items ≡ wished) }
    {
        if let Some(outlook) = self.kept_after(alloc, cache, reply, k)? {
            return Ok(outlook);
        }
        let mut ahead = self.search.copy()?;
        ahead.answer(reply)?;
        let mut look_ahead = LookAhead::new(alloc, ahead);
        let wishes = look_ahead.first_wishes(alloc, cache, k)?;
        Ok(Outlook { look_ahead, wishes })
    }

    /// The same by what was looked ahead before, where that goes by this reply and still holds; else it
    /// is let go.
    fn kept_after(
        &mut self,
        alloc: Global,
        cache: &Cache,
        reply: Reply,
        k: u32,
    ) -> Result<Option<Outlook<P>>, Memory>
        requires { Fits (P.shown self.old.rules self.old.replies).ask reply }
        ensures same { self.new ≡ self.old }
        ensures begins { IfOk result (λ found. IfSome found (λ o. BeginsAt (after_reply self.old reply) o.look_ahead)) }
        ensures value { let shown = P.shown self.old.rules in
            let replies = self.old.replies ++ reply ∷ [] in
            let wished = wishes_of shown cache.now.limits (known_in cache.now) replies k in
            IfOk result (λ found. IfSome found (λ o. o.wishes.items ≡ wished)) }
    {
        let Some(mut look_ahead) = self.look_ahead.take() else {
            return Ok(None);
        };
        if !look_ahead.go_by(0, reply)? {
            return Ok(None);
        }
        look_ahead.begin_later();
        let Some(wishes) = look_ahead.wishes(alloc, cache, k)? else {
            return Ok(None);
        };
        Ok(Some(Outlook { look_ahead, wishes }))
    }

    /// Takes the reply. What was looked ahead is kept, unless a copy has been about for long.
    fn take(&mut self, reply: Reply, look_ahead: LookAhead<P>) -> Result<(), Memory>
        requires fits { Fits (P.shown self.old.rules self.old.replies).ask reply }
        requires begins { BeginsAt (after_reply self.old reply) look_ahead }
        ensures taken { OnOk result (self.new ≡ after_reply self.old reply) }
        ensures err { OnErr result (self.new ≡ self.old) }
    {
        self.look_ahead = None;
        if self.apart < REPLIES_APART {
            self.search.answer(reply)?;
            self.look_ahead = Some(look_ahead);
            self.apart += 1;
            return Ok(());
        }
        drop(look_ahead);
        self.search.answer(reply)?;
        self.apart = 0;
        Ok(())
    }
}
