//! Over what an entry of a history lets others go on, or goes on itself.

ghost use Rattle.std.specs.Prelude.{◌≡◌};
ghost use Rattle.race_report_clocks.specs.layer.Channels.{telling_by, hearing_by};

use upc_values::{Action, Loc, Reply};

/// Over what threads hear one another: a phase of the barrier, a lock, a location.
#[derive(Clone, Copy)]
pub enum Channel {
    Phase(u32),
    Lock(u32),
    Cell(Loc),
}

/// Over what an action with its reply lets others go on, where its thread has notified so often before.
pub fn telling(notified: u32, action: &Action, reply: &Reply) -> Option<Channel>
    ensures { result ≡ telling_by notified action.now reply.now }
{
    match (action, reply) {
        (_, Reply::Refused(_)) => None,
        (Action::Notify(_), _) => Some(Channel::Phase(notified)),
        (Action::Unlock(lock), Reply::Done) => Some(Channel::Lock(*lock)),
        (
            Action::Write {
                strict: true,
                loc,
                ..
            },
            _,
        ) => Some(Channel::Cell(*loc)),
        _ => None,
    }
}

/// Over what an action with its reply goes on, where its thread has waited so often before.
pub fn hearing(waited: u32, action: &Action, reply: &Reply) -> Option<Channel>
    ensures { result ≡ hearing_by waited action.now reply.now }
{
    match (action, reply) {
        (_, Reply::Refused(_)) => None,
        (Action::Wait(_), _) => Some(Channel::Phase(waited)),
        (Action::Lock(lock), Reply::Done) => Some(Channel::Lock(*lock)),
        (Action::Attempt(lock), Reply::Flag(true)) => Some(Channel::Lock(*lock)),
        (Action::Read { loc, strict: true }, Reply::Value(_)) => Some(Channel::Cell(*loc)),
        _ => None,
    }
}
