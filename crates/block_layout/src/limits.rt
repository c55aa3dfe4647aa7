//! The limits of a run, each in one place. Those of a source stand in the crates of the front that keep them.

/// The most UPC threads.
pub const THREADS: u32 = 32;

/// The most bytes of all shared objects together, and the greatest block size: more is run error E21.
pub const SHARED_BYTES: u32 = 16_777_216;

/// The most bytes of the live private objects of a thread: more is run error E20.
pub const PRIVATE_BYTES: u32 = 1_048_576;

/// The most active calls of a thread, `main` among them: more is run error E19.
pub const CALLS: u32 = 1_000;

/// The most pending writes of a thread.
pub const PENDING_WRITES: u32 = 64;
