//! The typing rules, as definitions; what names stand for, and tests on types.
#![tactic(auto)]

mod attribute;
pub mod calls;
pub mod constants;
pub mod format;
pub mod laws;
mod library;
mod meaning;
pub mod names;
mod setting;
pub mod structs;
pub mod types;

pub use attribute::{Attr, Constant, Element, Form, Static};
pub use format::{Awaits, FormatStep, Printed};
pub use library::{LibraryConstant, LibraryParameter};
pub use meaning::{Around, Formed, Meaning, Signature, Use};
pub use setting::{Enclosing, Home, SizeOperator};
pub use types::kind_of;
pub use upc_values::{ElementKind, LibraryCall};
