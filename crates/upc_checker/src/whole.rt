//! A whole source: what it is, the first rule that is broken, or the first limit that is passed.

ghost use Rattle.std.specs.Prelude.{◌<◌, map};
ghost use Rattle.upc_tree.specs.layer.ViewStatement as trees;
ghost use Rattle.upc_types.specs.ViewStructs.{view_structs};
ghost use Rattle.typed_tree.specs.ViewStatements.{view_object};
ghost use Rattle.upc_checker.specs.Limits as limits;
ghost use Rattle.upc_checker.specs.Outcomes.{Answers, outcome};
ghost use Rattle.upc_checker.specs.code.ViewUnits.{view_checked, KeepsLimits};

use crate::limits::limit_in;
use crate::units::{defined_in, walk_unit};
use std::alloc::Global;
use typed_tree::env::file;
use typed_tree::{Function, Object};
use upc_checker_scopes::known::{Known, nothing_known};
use upc_checker_scopes::setting::Setting;
use upc_checker_scopes::tags::Tags;
use upc_lexer::Names;
use upc_text::{Code, Refusal, Stop};
use upc_tree::Unit;
use upc_types::Structs;

/// A source that is accepted: the number of threads, the structs, the objects of the file in order, and the functions
/// by number.
#[derive(Drop)]
pub(crate) struct Checked {
    pub threads: u32,
    pub structs: Structs,
    pub objects: Vec<Object>,
    pub functions: Vec<Function>,
}

// Refuses where a limit is passed.
fn keeps_limits(known: &Known, objects: &[Object]) -> Result<(), Stop>
    ensures { KeepsLimits (limits.limit_by (view_structs known.now.structs) known.now.above (map
        view_object objects.now)) result }
{
    match limit_in(known, objects) {
        None => Ok(()),
        Some(passed) => Err(Stop::Refused(Refusal {
            place: passed.place,
            code: Code::Limit(passed.limit),
        })),
    }
}

/// Checks a whole source: the first typing rule that is broken decides, and where there is none the first limit that
/// is passed.
pub(crate) fn check_source(
    alloc: Global,
    unit: &Unit,
    names: &Names,
    threads: u32,
) -> Result<Checked, Stop>
    requires { 0 < threads }
    ensures { Answers view_checked (outcome names.now threads (trees.view_unit unit.now)) result }
{
    let externals = unit.externals.as_slice();
    let defined = defined_in(alloc, externals)?;
    let setting = Setting {
        alloc,
        names,
        threads,
        defined: &defined,
    };
    let mut known = nothing_known(alloc);
    let mut env = file(alloc);
    let mut tags = Tags::new(alloc);
    let made = walk_unit(externals, setting, &mut env, &mut tags, &mut known)?;
    keeps_limits(&known, made.objects.as_slice())?;
    Ok(Checked {
        threads,
        structs: known.structs,
        objects: made.objects,
        functions: made.functions,
    })
}
