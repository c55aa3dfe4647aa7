//! A run without races is sequentially consistent (UPC Appendix B).
#![tactic(auto)]

mod law;

pub use law::empty_report_is_sequential;
