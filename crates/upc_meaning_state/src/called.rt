//! Calls of the library as they stand in the source (C99 7.19.6.3; UPC 7.2, 7.3).

ghost use Rattle.std.specs.Prelude.{◌≡◌, IfOk, map};
ghost use Rattle.typing_rules.specs.Nodes.{view_attr};
ghost use Rattle.typed_tree.specs.Tree.{exprs_of};
ghost use Rattle.typed_tree.specs.ViewTree.{view_expr};
ghost use Rattle.upc_meaning_state.specs.layer.Came.{Came, state_seen};
ghost use Rattle.upc_meaning_state.specs.layer.Libraries.{format_first, library_called};
ghost use Rattle.upc_meaning_settings.specs.layer.Runners.{Fits};
ghost use Rattle.upc_meaning_settings.specs.layer.Settings.{running_seen};

use crate::progress::{Progress, Step};
use meaning_types::{format_of, is_printf};
use std::alloc::Global;
use typed_tree::Expr;
use upc_meaning_settings::{Setting, allocated_shape};
use upc_text::{OutOfMemory, Text};
use upc_values::{LibraryCall, Value};

// The format of a printf with these arguments: the first one.
fn format_first(alloc: Global, args: &[Expr]) -> Result<Text, OutOfMemory>
    ensures { IfOk result (λ format. format ≡ format_first (exprs_of (map view_expr args.now))) }
{
    match args.split_first() {
        None => Ok(Text::new(alloc)),
        Some((format, _)) => format_of(alloc, format),
    }
}

impl<'r> Progress<'r> {
    /// A call of the library.
    pub fn library_call(
        &mut self,
        setting: Setting<'_>,
        e: &Expr,
        call: LibraryCall,
        list: &[Expr],
        args: &[Value],
    ) -> Result<Step<Value>, OutOfMemory>
        requires { Fits setting.runner }
        ensures { IfOk result (λ s. Came (library_called (running_seen setting.entry) e.now.place (view_attr e.now.attr)
            call (exprs_of (map view_expr list.now)) args.now (state_seen self.old)) s self.new) }
    {
        let runner = setting.runner;
        if is_printf(call) {
            let format = format_first(runner.alloc, list)?;
            self.print(runner, format.as_slice(), args)
        } else {
            let shape = allocated_shape(setting, call, &e.attr.ctype)?;
            self.library(runner, e.place, call, shape, args)
        }
    }
}
