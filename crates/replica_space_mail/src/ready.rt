//! What comes before a synchronising action.

ghost use Rattle.std.specs.Prelude.{◌≡◌, ◌≤◌, ◌<◌, ◌+◌, ◌++◌, ◌^◌, ℕ, length, IfOk, OnOk};
ghost use Rattle.upc_values.specs.Openings.{Opening};
ghost use Rattle.replica_space.specs.Runs.{NoneWaits};
ghost use Rattle.replica_space.specs.Spaces as said;
ghost use Rattle.replica_space_copies.specs.layer.Copies.{space_of, threads_of, IsSteady};
ghost use Rattle.replica_space_mail.specs.layer.Deliveries.{Follows, all_deliveries};
ghost use Rattle.replica_space_mail.specs.layer.Deliveries.{due, IsReady};

use crate::deliveries::deliver_all;
use crate::roll::Roll;
use replica_space_copies::Copies;
use upc_text::OutOfMemory;
use upc_values::Action;

// How many events there may be, and one more.
const LIMIT: u64 = 1 << 62;

/// Whether the action is synchronising: a strict read or write, a fence, a notify, a wait, and what takes a lock, tries
/// to, or lets it go.
pub fn is_synchronising(action: &Action) -> bool
    ensures { result ≡ said.is_synchronising action.now }
{
    match action {
        Action::Read { strict, .. } | Action::Write { strict, .. } => *strict,
        Action::Fence
        | Action::Notify(_)
        | Action::Wait(_)
        | Action::Lock(_)
        | Action::Attempt(_)
        | Action::Unlock(_) => true,
        _ => false,
    }
}

/// Takes room for one more event and, where `meets`, for those in which all mail that waits is delivered; and answers
/// how many events there will be. Want of memory comes also where they would be 2^62.
pub fn make_room(
    copies: &Copies,
    events: &mut Roll,
    count: u64,
    meets: bool,
) -> Result<u64, OutOfMemory>
    ensures items { events.new.items ≡ events.old.items }
    ensures room { OnOk result (1 + due meets copies.now ≤ events.new.room) }
    ensures count { IfOk result (λ n. n ≡ count + due meets copies.now + 1) }
    ensures few { IfOk result (λ n. n < 2 ^ 62) }
{
    let waiting = if meets { copies.waiting() } else { 0 };
    let left = LIMIT - 1;
    if waiting as u64 >= left || count >= left - waiting as u64 {
        return Err(OutOfMemory);
    }
    events.reserve(waiting + 1)?;
    Ok(count + waiting as u64 + 1)
}

// The thread delivers all mail that waits, if there is any; there is room for the events. It takes no memory.
fn deliver_waiting(copies: &mut Copies, events: &mut Roll, thread: u32, threads: u32)
    requires by { thread < threads_of copies.old }
    requires all { threads ≡ threads_of copies.old }
    requires room { copies.old.waiting ≤ events.old.room }
    ensures steady { IsSteady copies.old copies.new }
    ensures events { events.new.items
        ≡ events.old.items ++ all_deliveries thread threads threads (space_of copies.old) }
    ensures many { length events.new.items ≡ length events.old.items + copies.old.waiting }
    ensures none { NoneWaits threads (space_of copies.new) }
    ensures follows { (o : Opening) → Follows o copies.old events.old.items → Follows o copies.new events.new.items }
    ensures room { (k : ℕ) → k + copies.old.waiting ≤ events.old.room → k + copies.new.waiting ≤ events.new.room }
{
    if copies.waiting() > 0 {
        deliver_all(copies, events, thread, threads);
    }
}

/// What comes before an action of the thread: where `meets`, it delivers all mail that waits, and then the clocks meet;
/// there is room for the events and for that of the action. It takes no memory.
pub fn prepare(copies: &mut Copies, events: &mut Roll, thread: u32, threads: u32, meets: bool)
    requires by { thread < threads_of copies.old }
    requires all { threads ≡ threads_of copies.old }
    requires room { 1 + due meets copies.old ≤ events.old.room }
    ensures steady { IsSteady copies.old copies.new }
    ensures ready { (o : Opening) → Follows o copies.old events.old.items
        → IsReady o meets thread events.old.items copies.new events.new.items }
    ensures many { length events.new.items ≡ length events.old.items + due meets copies.old }
    ensures room { 0 < events.new.room }
{
    if meets {
        deliver_waiting(copies, events, thread, threads);
        copies.meet();
    }
}
