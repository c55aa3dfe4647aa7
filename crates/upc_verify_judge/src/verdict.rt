//! What is found.

/// A record is sound, or a part of it is broken: the first part that fails, by number, and the first thread of which it
/// does.
#[derive(Clone, Copy, PartialEq, Eq, Debug)]
pub enum Verdict {
    Sound,
    Broken { part: u8, thread: u32 },
}
