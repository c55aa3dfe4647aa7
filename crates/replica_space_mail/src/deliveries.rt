//! How a thread delivers the mail that waits.

ghost use Rattle.std.specs.Prelude.{◌≡◌, ◌≢◌, ◌≤◌, ◌<◌, ◌+◌, ◌++◌, ◌↔◌, ℕ, cond, ◌==◌, ◌&&◌, [], drop, IsTrue};
ghost use Rattle.upc_values.specs.Openings.{Opening};
ghost use Rattle.replica_space.specs.Runs.{NoneWaits};
ghost use Rattle.replica_space_copies.specs.layer.Copies.{space_of, threads_of, IsSteady};
ghost use Rattle.replica_space_mail.specs.layer.Deliveries as said;
ghost use Rattle.replica_space_mail.specs.layer.Deliveries.{Follows, mail_in};

use crate::roll::Roll;
use replica_space::{Deed, Event};
use replica_space_copies::Copies;

/// A thread delivers the oldest message to `to` from `from`, if one waits; there is room for the event. It takes no
/// memory.
pub fn deliver_one(copies: &mut Copies, events: &mut Roll, by: u32, to: u32, from: u32) -> bool
    requires by { by < threads_of copies.old }
    requires to { to < threads_of copies.old }
    requires from { from < threads_of copies.old }
    requires room { 0 < copies.old.waiting → 0 < events.old.room }
    ensures found { IsTrue result ↔ (mail_in copies.old to from ≢ []) }
    ensures steady { IsSteady copies.old copies.new }
    ensures events { events.new.items ++ said.deliveries by to from (drop 1 (mail_in copies.old to from))
        ≡ events.old.items ++ said.deliveries by to from (mail_in copies.old to from) }
    ensures mail { (u v : ℕ) → u < threads_of copies.old → v < threads_of copies.old → mail_in copies.new u v
        ≡ cond ((u == to) && (v == from)) (drop 1 (mail_in copies.old u v)) (mail_in copies.old u v) }
    ensures follows { (o : Opening) → Follows o copies.old events.old.items → Follows o copies.new events.new.items }
    ensures room { (k : ℕ) → k + copies.old.waiting ≤ events.old.room → k + copies.new.waiting ≤ events.new.room }
    ensures fewer { IsTrue result → copies.new.waiting < copies.old.waiting }
{
    if copies.deliver(to, from) {
        events.push(Event {
            by,
            deed: Deed::Delivered { to, from },
        });
        return true;
    }
    false
}

// The thread delivers all mail to `to` from `from`, oldest first.
fn deliver_from(copies: &mut Copies, events: &mut Roll, by: u32, to: u32, from: u32)
    requires by { by < threads_of copies.old }
    requires to { to < threads_of copies.old }
    requires from { from < threads_of copies.old }
    requires room { copies.old.waiting ≤ events.old.room }
    ensures steady { IsSteady copies.old copies.new }
    ensures events { events.new.items ≡ events.old.items ++ said.deliveries by to from (mail_in copies.old to from) }
    ensures mail { (u v : ℕ) → u < threads_of copies.old → v < threads_of copies.old → mail_in copies.new u v
        ≡ cond ((u == to) && (v == from)) [] (mail_in copies.old u v) }
    ensures follows { (o : Opening) → Follows o copies.old events.old.items → Follows o copies.new events.new.items }
    ensures room { (k : ℕ) → k + copies.old.waiting ≤ events.old.room → k + copies.new.waiting ≤ events.new.room }
{
    while deliver_one(copies, events, by, to, from) {}
}

// The thread delivers all mail to `to` from so many threads, by sender.
fn deliver_to(copies: &mut Copies, events: &mut Roll, by: u32, to: u32, threads: u32)
    requires by { by < threads_of copies.old }
    requires to { to < threads_of copies.old }
    requires all { threads ≡ threads_of copies.old }
    requires room { copies.old.waiting ≤ events.old.room }
    ensures steady { IsSteady copies.old copies.new }
    ensures events { events.new.items ≡ events.old.items ++ said.deliveries_to by to threads (space_of copies.old) }
    ensures mail { (u v : ℕ) → u < threads → v < threads → mail_in copies.new u v
        ≡ cond (u == to) [] (mail_in copies.old u v) }
    ensures follows { (o : Opening) → Follows o copies.old events.old.items → Follows o copies.new events.new.items }
    ensures room { (k : ℕ) → k + copies.old.waiting ≤ events.old.room → k + copies.new.waiting ≤ events.new.room }
{
    for from in 0..threads {
        deliver_from(copies, events, by, to, from);
    }
}

/// A thread delivers all mail that waits for any of so many threads from any of them, by receiver, then sender; there
/// is room for the events. It takes no memory.
pub fn deliver_all(copies: &mut Copies, events: &mut Roll, by: u32, threads: u32)
    requires by { by < threads_of copies.old }
    requires all { threads ≡ threads_of copies.old }
    requires room { copies.old.waiting ≤ events.old.room }
    ensures steady { IsSteady copies.old copies.new }
    ensures events { events.new.items
        ≡ events.old.items ++ said.all_deliveries by threads threads (space_of copies.old) }
    ensures none { NoneWaits threads (space_of copies.new) }
    ensures follows { (o : Opening) → Follows o copies.old events.old.items → Follows o copies.new events.new.items }
    ensures room { (k : ℕ) → k + copies.old.waiting ≤ events.old.room → k + copies.new.waiting ≤ events.new.room }
{
    for to in 0..threads {
        deliver_to(copies, events, by, to, threads);
    }
}
