//! The list of one thread.

ghost use Rattle.std.specs.Prelude.{◌≡◌, ◌∷◌, ◌++◌, [], map, IfOk, OnOk};
ghost use Rattle.upc_values.specs.Operations.{access};
ghost use Rattle.replica_space_rows.specs.layer.Rows as said;
ghost use Rattle.replica_space_rows.specs.layer.Rows.{other, with_access};

use crate::member::{Member, member_of};
use crate::slotted::{Slotted, compare};
use replica_space::{Message, Stamp};
use replica_space_marks::Index;
use std::alloc::{AllocError as OutOfMemory, Global};
use std::marker::Model;
use upc_values::{Action, Listing, Op, Order, Reply};

/// The list of one thread: its members as they came, each with its slot. Contracts see them in their places.
#[derive(Drop)]
pub struct Row {
    members: Vec<Slotted>,
    slots: usize,
    index: Index,
}

impl Model for Row {
    ghost use Rattle.std.specs.Prelude.{List};
    ghost use Rattle.replica_space_marks.specs.layer.Index.{marks_at};
    ghost use Rattle.replica_space_rows.specs.declared.member.Member.{Member};
    ghost use Rattle.replica_space_rows.specs.code.Places.{members_of, placed_all, ArePlaced};

    ghost Value = { List Member };

    ghost view = { λ r. members_of r.members.items };

    ghost invariant = { λ r. ArePlaced (placed_all r.members.items) r.slots (marks_at r.index) };
}

impl Row {
    /// The empty list. It takes no memory.
    pub fn new(alloc: Global) -> Row
        ensures { result ≡ [] }
    {
        Row {
            members: Vec::new(alloc),
            slots: 0,
            index: Index::new(alloc),
        }
    }

    // Adds an operation that writes no location, at the end.
    fn add(&mut self, thread: u32, index: u32, write: bool) -> Result<(), OutOfMemory>
        ensures { OnOk result (self.new ≡ self.old ++ other thread index write ∷ []) }
    {
        let name = Op {
            thread,
            index,
            write,
        };
        let member = Member {
            name,
            written: None,
        };
        let slot = self.slots;
        if slot == usize::MAX {
            return Err(OutOfMemory);
        }
        self.members.push(Slotted { member, slot })?;
        self.slots = slot + 1;
        Ok(())
    }

    /// Adds the operations of an action with its reply and this stamp: a write in its place by the stamp, others at the
    /// end.
    pub fn push(
        &mut self,
        index: u32,
        action: &Action,
        reply: &Reply,
        stamp: Stamp,
    ) -> Result<(), OutOfMemory>
        ensures { OnOk result (self.new ≡ with_access stamp index (access action.now reply.now) self.old) }
    {
        match (action, reply) {
            (_, Reply::Refused(_)) => {}
            (Action::Read { .. }, Reply::Value(_))
            | (Action::Wait(_) | Action::Lock(_), _)
            | (Action::Attempt(_), Reply::Flag(true)) => {
                self.add(stamp.thread, index, false)?;
            }
            (Action::Write { loc, value, .. }, _) => {
                let message = Message {
                    index,
                    loc: *loc,
                    value: *value,
                    stamp,
                };
                self.put(&message)?;
            }
            (Action::Notify(_) | Action::Unlock(_), _) => {
                self.add(stamp.thread, index, true)?;
            }
            (Action::Fence, _) => {
                self.add(stamp.thread, index, true)?;
                self.add(stamp.thread, index, false)?;
            }
            _ => {}
        }
        Ok(())
    }

    /// Puts the write of a message in its place: directly before the first write on its location with a later stamp, or
    /// at the end.
    pub fn put(&mut self, message: &Message) -> Result<(), OutOfMemory>
        ensures { OnOk result (self.new ≡ said.with_member message.now self.old) }
    {
        let member = member_of(message);
        if let Some(slot) = self.index.find(message.loc, &message.stamp) {
            self.members.push(Slotted { member, slot })?;
            return Ok(());
        }
        let slot = self.slots;
        if slot == usize::MAX {
            return Err(OutOfMemory);
        }
        self.members.reserve(1)?;
        let alloc = *self.members.allocator();
        self.index.add(alloc, message.loc, message.stamp, slot)?;
        self.members.push_reserved(Slotted { member, slot });
        self.slots = slot + 1;
        Ok(())
    }

    /// The names of the members, in their places.
    pub fn into_order(self, alloc: Global) -> Result<Order, OutOfMemory>
        ensures { IfOk result (λ order. order ≡ map (λ m. m.name) self) }
    {
        let mut members = self.members;
        members.sort_by(compare)?;
        let mut names = Vec::with_capacity(alloc, members.len())?;
        for slotted in members.iter() {
            names.push(slotted.member.name)?;
        }
        Ok(Listing::from_vec(names))
    }
}
