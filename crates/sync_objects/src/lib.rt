//! What threads wait for: the locks and the barrier of a run.
#![tactic(auto)]

mod attendance;
mod barrier;
mod locks;

pub use attendance::Attendance;
pub use barrier::Barrier;
pub use locks::{LockState, Locks};
