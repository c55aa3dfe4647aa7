//! Operations in a thread's list.

ghost use Rattle.std.specs.Prelude.{◌≡◌};
ghost use Rattle.replica_space_rows.specs.layer.Rows as said;

use replica_space::{Message, Stamp};
use upc_values::{Loc, Op};

/// A location, and the stamp of a write there.
#[derive(Clone, Copy)]
pub struct Written {
    pub loc: Loc,
    pub stamp: Stamp,
}

/// An operation in a thread's list: its name and, where it writes a location, what it has written.
#[derive(Clone, Copy)]
pub struct Member {
    pub name: Op,
    pub written: Option<Written>,
}

// The write of a message, as a member.
pub(crate) fn member_of(message: &Message) -> Member
    ensures { result ≡ said.write_in message.now }
{
    let name = Op {
        thread: message.stamp.thread,
        index: message.index,
        write: true,
    };
    let written = Written {
        loc: message.loc,
        stamp: message.stamp,
    };
    Member {
        name,
        written: Some(written),
    }
}
