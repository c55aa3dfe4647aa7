//! The collective calls 5 to 12, step by step (UPC 7.3).
#![tactic(auto)]

mod arguments;
mod asked;
mod call;
mod cells;
mod collective;
mod copies;
mod elements;
mod join;
mod number;
mod part;
mod permute;
mod piece;
mod prefixes;
mod reduce;
mod reduction;
mod reply;
mod stage;
mod step;
mod thread;
mod total;
mod ways;
mod wish;
mod work;

pub use call::may_meet;
pub use collective::Collective;
pub use wish::CollWish;
