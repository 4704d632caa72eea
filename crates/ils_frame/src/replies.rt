//! The replies that a search took.
ghost use Rattle.std.specs.Prelude.{◌≡◌, ◌≤◌, ◌++◌, ◌∷◌, [], length, IfOk, OnOk};

use ils_face::Reply;
use objective::Memory;
use std::alloc::Global;
use std::marker::Model;
use std::sync::Arc;

/// Replies, oldest first: a common list that copies share, and those that came while a copy
/// was about.
#[derive(Drop)]
pub(crate) struct Replies {
    common: Arc<Vec<Reply>>,
    further: Vec<Reply>,
}

impl Model for Replies {
    ghost use Rattle.std.specs.Prelude.{◌++◌, ◌-◌, length};
    ghost use Rattle.std.specs.Vec.{vec_capacity};
    ghost use Rattle.ils_frame.specs.HeldReplies.{HeldReplies};

    ghost Value = { HeldReplies };

    ghost view = { λ r. record {
      items = r.common.value.items ++ r.further.items;
      room = vec_capacity r.further - length r.further.items;
    } };
}

impl Replies {
    /// No reply yet.
    pub(crate) fn new(alloc: Global) -> Result<Replies, Memory>
        ensures { IfOk result (λ r. r.items ≡ []) }
    {
        Ok(Replies {
            common: Arc::new(alloc, Vec::new(alloc))?,
            further: Vec::new(alloc),
        })
    }

    /// The allocator of the list.
    pub(crate) fn allocator(&self) -> Global {
        *self.further.allocator()
    }

    /// The number of replies.
    pub(crate) fn len(&self) -> u64
        ensures { result ≡ length self.now.items }
    {
        self.common.len() as u64 + self.further.len() as u64
    }

    /// Makes room for one more. Where no copy is about, all come into one list.
    pub(crate) fn reserve(&mut self) -> Result<(), Memory>
        ensures items { self.new.items ≡ self.old.items }
        ensures ok { OnOk result (1 ≤ self.new.room) }
    {
        if let Some(all) = Arc::get_mut(&mut self.common) {
            all.append(&mut self.further)?;
        }
        self.further.reserve(1)?;
        Ok(())
    }

    /// Takes one more, where there is room. Takes no memory.
    pub(crate) fn push_reserved(&mut self, reply: Reply)
        requires { 1 ≤ self.old.room }
        ensures items { self.new.items ≡ self.old.items ++ reply ∷ [] }
    {
        self.further.push_reserved(reply);
    }

    /// The same replies: the common list is shared, and the further ones are copied.
    pub(crate) fn copy(&self) -> Result<Replies, Memory>
        ensures { IfOk result (λ r. r.items ≡ self.now.items) }
    {
        Ok(Replies {
            common: self.common.clone()?,
            further: self.further.clone()?,
        })
    }
}
