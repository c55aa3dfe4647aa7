//! Programs that are well typed: the tree with its types, and the scopes of names.
#![tactic(auto)]

mod beginning;
pub mod env;
mod numbers;
mod program;
pub mod scope;
mod tree;

pub use beginning::{Beginning, SharedDecl};
pub use numbers::numbered;
pub use program::Program;
pub use tree::{
    Affinity, Arm, Expr, ExprKind, Function, Head, Initial, Item, Object, Statement, StatementKind,
    StepOperator, SwitchItem, Synchronises, Target,
};
