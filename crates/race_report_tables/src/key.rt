//! Channels as keys of a map.

ghost use Rattle.std.specs.Prelude.{◌≡◌};
ghost use Rattle.race_report_tables.specs.layer.Places as said;

use race_report_clocks::Channel;

/// A channel by four numbers: its kind, and what it is over.
#[derive(Clone, Copy, PartialEq, Eq, Hash)]
pub struct Key {
    pub kind: u32,
    pub object: u32,
    pub thread: u32,
    pub offset: u32,
}

// The key of a phase or a lock.
fn numbered(kind: u32, number: u32) -> Key
    ensures { result ≡ record { kind = kind; object = number; thread = 0; offset = 0 } }
{
    Key {
        kind,
        object: number,
        thread: 0,
        offset: 0,
    }
}

/// The key of a channel.
pub fn key_of(channel: Channel) -> Key
    ensures { result ≡ said.key_of channel }
{
    match channel {
        Channel::Phase(number) => numbered(0, number),
        Channel::Lock(number) => numbered(1, number),
        Channel::Cell(loc) => Key {
            kind: 2,
            object: loc.object,
            thread: loc.thread,
            offset: loc.offset,
        },
    }
}
