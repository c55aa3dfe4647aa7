//! The lowest typing rule that a call breaks.

ghost use Rattle.std.specs.Prelude.{◌≡◌, ℕ, map, drop, Option};
ghost use Rattle.std.specs.List.{list_any};
ghost use Rattle.upc_types.specs.View.{view};
ghost use Rattle.upc_types.specs.ViewStructs.{view_structs};
ghost use Rattle.typing_rules.specs.layer.Views.{view_meaning, view_use, view_text};
ghost use Rattle.typing_rules.specs.Nodes as node;
ghost use Rattle.typing_rules.specs.Rules as rules;
ghost use Rattle.typing_rules.specs.Rules.{lowest};
ghost use Rattle.typed_tree.specs.ViewTree.{attr_seen};

use crate::format::prints;
use typed_tree::Expr;
use typing_rules::calls::call_parameters;
use typing_rules::types::gives_void;
use typing_rules::{LibraryParameter, Meaning, Use};
use typing_rules_checks::calls::{
    allocates_private, allocates_well, can_be_called, is_printf, no_function,
};
use typing_rules_checks::conversion::{converts, takes};
use upc_types::{CType, Structs};
use upc_values::LibraryCall;

fn any_void(args: &[Expr]) -> bool
    ensures { result ≡ list_any rules.gives_void (map attr_seen args.now) }
{
    for x in args {
        if gives_void(&x.attr) {
            return true;
        }
    }
    false
}

// Whether there is no argument of this number, or it converts into the type.
fn one_converts(args: &[Expr], i: usize, t: &CType) -> bool
    ensures { result ≡ rules.first_converts (map attr_seen (drop i args.now)) (view t.now) }
{
    match args.get(i) {
        Some(x) => converts(&x.attr, t),
        None => true,
    }
}

fn all_convert(args: &[Expr], types: &[CType]) -> bool
    ensures { result ≡ rules.all_convert (map attr_seen args.now) (map view types.now) }
{
    for i in 0..types.len() {
        if !one_converts(args, i, &types[i]) {
            return false;
        }
    }
    true
}

fn one_taken(args: &[Expr], i: usize, x: LibraryParameter) -> bool
    ensures { result ≡ rules.first_taken (map attr_seen (drop i args.now)) x }
{
    match args.get(i) {
        Some(a) => takes(x, &a.attr),
        None => true,
    }
}

fn all_taken(args: &[Expr], parameters: &[LibraryParameter]) -> bool
    ensures { result ≡ rules.all_taken (map attr_seen args.now) parameters.now }
{
    for i in 0..parameters.len() {
        if !one_taken(args, i, parameters[i]) {
            return false;
        }
    }
    true
}

fn one_is_no_function(args: &[Expr], i: usize, x: LibraryParameter) -> bool
    ensures { result ≡ rules.first_is_no_function (map attr_seen (drop i args.now)) x }
{
    match args.get(i) {
        Some(a) => no_function(x, &a.attr),
        None => true,
    }
}

fn no_functions(args: &[Expr], parameters: &[LibraryParameter]) -> bool
    ensures { result ≡ rules.no_functions (map attr_seen args.now) parameters.now }
{
    for i in 0..parameters.len() {
        if !one_is_no_function(args, i, parameters[i]) {
            return false;
        }
    }
    true
}

fn library_passes(call: LibraryCall, args: &[Expr]) -> bool
    ensures { result ≡ rules.library_passes call (map attr_seen args.now) }
{
    match call {
        LibraryCall::Printf => !any_void(args),
        _ => all_taken(args, call_parameters(call)),
    }
}

fn passes(meaning: Meaning<'_>, args: &[Expr]) -> bool
    ensures { result ≡ rules.passes (view_meaning meaning.entry) (map attr_seen args.now) }
{
    match meaning {
        Meaning::Function(s) => all_convert(args, s.parameters.as_slice()),
        Meaning::Library(call) => library_passes(call, args),
        _ => true,
    }
}

fn format_fits(format: Option<&[u8]>, args: &[Expr]) -> bool
    ensures { result ≡ rules.format_fits (view_text format.entry) (map attr_seen args.now) }
{
    match format {
        Some(format) => args.is_empty() || prints(format, &args[1..]),
        None => args.is_empty(),
    }
}

fn printf_fits(meaning: Meaning<'_>, format: Option<&[u8]>, args: &[Expr]) -> bool
    ensures { result ≡ rules.printf_fits (view_meaning meaning.entry) (view_text format.entry)
        (map attr_seen args.now) }
{
    match meaning {
        Meaning::Library(call) => !is_printf(call) || format_fits(format, args),
        _ => true,
    }
}

fn reduces_well(meaning: Meaning<'_>, args: &[Expr]) -> bool
    ensures { result ≡ rules.reduces_well (view_meaning meaning.entry) (map attr_seen args.now) }
{
    match meaning {
        Meaning::Library(call) => no_functions(args, call_parameters(call)),
        _ => true,
    }
}

/// A call of what a name stands for, used so; `runs` says that the file defines it and that it is not main, and
/// `format` is the text of the first argument where that is a string.
pub fn call(
    structs: &Structs,
    how: Use<'_>,
    meaning: Meaning<'_>,
    runs: bool,
    format: Option<&[u8]>,
    args: &[Expr],
) -> Option<u8>
    ensures { (threads : ℕ) → result
        ≡ lowest (record { structs = view_structs structs.now; threads = threads })
        (node.Call (view_use how.entry) (view_meaning meaning.entry) runs (view_text format.entry)
        (map attr_seen args.now)) }
{
    if allocates_private(structs, how, meaning) {
        Some(8)
    } else if !can_be_called(meaning, runs, args.len()) {
        Some(10)
    } else if !passes(meaning, args) {
        Some(12)
    } else if !printf_fits(meaning, format, args) {
        Some(28)
    } else if !allocates_well(structs, how, meaning) {
        Some(29)
    } else if !reduces_well(meaning, args) {
        Some(31)
    } else {
        None
    }
}
