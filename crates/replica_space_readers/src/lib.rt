//! Two readers that see two writes in opposite orders, which copies of the memory may show and one history may not (UPC
//! Appendix B).
#![tactic(auto)]

mod law;

pub use law::readers_need_copies;
