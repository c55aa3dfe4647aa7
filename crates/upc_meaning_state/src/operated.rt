//! Operators of expressions whose operands have their values (C99 6.5, UPC 6.4).

ghost use Rattle.std.specs.Prelude.{◌≡◌, IfOk};
ghost use Rattle.upc_types.specs.View.{view};
ghost use Rattle.typed_tree.specs.ViewTree.{view_expr};
ghost use Rattle.source_meaning.specs.Expressions as mean;
ghost use Rattle.source_meaning.specs.layer.Parts as parts;
ghost use Rattle.upc_meaning_state.specs.layer.Came.{Came, state_seen};
ghost use Rattle.upc_meaning_state.specs.layer.Operations as pure;
ghost use Rattle.upc_meaning_settings.specs.layer.Runners.{Fits};
ghost use Rattle.upc_meaning_settings.specs.layer.Settings.{running_seen};

use crate::progress::{Progress, Step};
use integers::BinOp;
use meaning_types::{
    cell_kind, conversion, dimension, integer_of, is_strict, member_offset, target_of,
    target_offset,
};
use thread_steps::CastTo;
use thread_values::number_of;
use typed_tree::{Expr, ExprKind, StepOperator};
use typing_rules::types::int_type;
use upc_meaning_settings::Setting;
use upc_text::{OutOfMemory, Place};
use upc_types::CType;
use upc_values::{Scalar, Value};

// The operator of `++` and `--`.
fn step_operator(setting: Setting<'_>, op: StepOperator) -> BinOp
    ensures { result ≡ mean.step_operator (running_seen setting.entry) op }
{
    match op {
        StepOperator::IncrementFirst | StepOperator::IncrementAfter => BinOp::Add,
        StepOperator::DecrementFirst | StepOperator::DecrementAfter => BinOp::Subtract,
    }
}

// Which value of the two they give.
fn step_value(op: StepOperator, old: Value, new: Value) -> Value
    ensures { result ≡ parts.step_value old new op }
{
    match op {
        StepOperator::IncrementFirst | StepOperator::DecrementFirst => new,
        StepOperator::IncrementAfter | StepOperator::DecrementAfter => old,
    }
}

impl<'r> Progress<'r> {
    /// The value of the object of a type at a place.
    pub(crate) fn held(
        &mut self,
        setting: Setting<'_>,
        strict: bool,
        place: Place,
        t: &CType,
        p: Value,
    ) -> Result<Step<Value>, OutOfMemory>
        requires { Fits setting.runner }
        ensures { IfOk result (λ s. Came (mean.held (running_seen setting.entry) strict place (view t.now) p
            (state_seen self.old)) s self.new) }
    {
        match cell_kind(setting.structs, t) {
            Some(kind) => self.load(setting.runner, kind, is_strict(strict, t), place, p),
            None => Ok(Step::Gives(p)),
        }
    }

    /// The object of a type at a place has a new value.
    pub fn put(
        &mut self,
        setting: Setting<'_>,
        strict: bool,
        place: Place,
        t: &CType,
        p: Value,
        v: Value,
    ) -> Result<Step<()>, OutOfMemory>
        requires { Fits setting.runner }
        ensures { IfOk result (λ s. Came (mean.put (running_seen setting.entry) strict place (view t.now) p
            v (state_seen self.old)) s self.new) }
    {
        match cell_kind(setting.structs, t) {
            Some(kind) => self.save(setting.runner, kind, is_strict(strict, t), place, p, v),
            None => Ok(Step::Gives(())),
        }
    }

    // A subscript.
    fn subscript(
        &self,
        setting: Setting<'_>,
        place: Place,
        t: &CType,
        count: Option<u32>,
        p: Value,
        i: i128,
    ) -> Result<Step<Value>, OutOfMemory>
        requires { Fits setting.runner }
        ensures { IfOk result (λ s. Came (pure.subscript (running_seen setting.entry) place (view t.now) count p i
            (state_seen self.now)) s self.now) }
    {
        let q = match self.behind(setting, place, t, p, i)? {
            Step::Ends(end) => return Ok(Step::Ends(end)),
            Step::Gives(q) => q,
        };
        match self.within_row(place, count, &p, i) {
            Step::Ends(end) => Ok(Step::Ends(end)),
            Step::Gives(()) => Ok(Step::Gives(q)),
        }
    }

    // The converted value is the new one of the object at a place.
    fn put_cast(
        &mut self,
        setting: Setting<'_>,
        strict: bool,
        place: Place,
        into: CastTo,
        at: Place,
        t: &CType,
        p: Value,
        v: Value,
    ) -> Result<Step<Value>, OutOfMemory>
        requires { Fits setting.runner }
        ensures { IfOk result (λ s. Came (pure.put_cast (running_seen setting.entry) strict place into at (view t.now) p
            v (state_seen self.old)) s self.new) }
    {
        let w = match self.cast(setting.runner, into, at, v)? {
            Step::Ends(end) => return Ok(Step::Ends(end)),
            Step::Gives(w) => w,
        };
        match self.put(setting, strict, place, t, p, w)? {
            Step::Ends(end) => Ok(Step::Ends(end)),
            Step::Gives(()) => Ok(Step::Gives(w)),
        }
    }

    // A compound assignment.
    fn compound(
        &mut self,
        setting: Setting<'_>,
        strict: bool,
        place: Place,
        op: BinOp,
        t: &CType,
        u: &CType,
        p: Value,
        y: Value,
    ) -> Result<Step<Value>, OutOfMemory>
        requires { Fits setting.runner }
        ensures { IfOk result (λ s. Came (pure.compound (running_seen setting.entry) strict place op (view t.now)
            (view u.now) p y (state_seen self.old)) s self.new) }
    {
        let x = match self.held(setting, strict, place, t, p)? {
            Step::Ends(end) => return Ok(Step::Ends(end)),
            Step::Gives(x) => x,
        };
        let z = match self.binary(setting, place, op, t, u, &x, &y)? {
            Step::Ends(end) => return Ok(Step::Ends(end)),
            Step::Gives(z) => z,
        };
        self.put_cast(setting, strict, place, conversion(t, t), place, t, p, z)
    }

    // `++` and `--`.
    fn step(
        &mut self,
        setting: Setting<'_>,
        strict: bool,
        place: Place,
        op: StepOperator,
        t: &CType,
        p: Value,
    ) -> Result<Step<Value>, OutOfMemory>
        requires { Fits setting.runner }
        ensures { IfOk result (λ s. Came (pure.step (running_seen setting.entry) strict place op (view t.now) p
            (state_seen self.old)) s self.new) }
    {
        let old = match self.held(setting, strict, place, t, p)? {
            Step::Ends(end) => return Ok(Step::Ends(end)),
            Step::Gives(v) => v,
        };
        let one = Value::Scalar(Scalar::Int(1));
        let op_of = step_operator(setting, op);
        let sum = match self.binary(setting, place, op_of, t, &int_type(), &old, &one)? {
            Step::Ends(end) => return Ok(Step::Ends(end)),
            Step::Gives(w) => w,
        };
        match self.put_cast(setting, strict, place, conversion(t, t), place, t, p, sum)? {
            Step::Ends(end) => Ok(Step::Ends(end)),
            Step::Gives(new) => Ok(Step::Gives(step_value(op, old, new))),
        }
    }

    /// The operator of an expression whose operands have these values; one operand is the second.
    pub fn operated(
        &mut self,
        setting: Setting<'_>,
        strict: bool,
        e: &Expr,
        x: Value,
        y: Value,
    ) -> Result<Step<Value>, OutOfMemory>
        requires { Fits setting.runner }
        ensures { IfOk result (λ s. Came (pure.operated (running_seen setting.entry) strict (view_expr e.now) x y
            (state_seen self.old)) s self.new) }
    {
        let runner = setting.runner;
        let structs = setting.structs;
        let place = e.place;
        match &e.kind {
            ExprKind::Subscript(a, _) => {
                self.subscript(
                    setting,
                    place,
                    &e.attr.ctype,
                    dimension(a),
                    x,
                    number_of(&y),
                )
            }
            ExprKind::Member(a, index) => {
                self.member(
                    runner,
                    member_offset(structs, &a.attr.ctype, *index),
                    place,
                    y,
                )
            }
            ExprKind::MemberBehind(a, index) => {
                let offset = target_offset(structs, target_of(&a.attr.ctype), *index);
                self.member(runner, offset, place, y)
            }
            ExprKind::Step(op, a) => self.step(setting, strict, place, *op, &a.attr.ctype, y),
            ExprKind::Unary(op, a) => self.unary(place, *op, integer_of(&a.attr.ctype), &y),
            ExprKind::Cast(a) => {
                self.cast(runner, conversion(&a.attr.ctype, &e.attr.ctype), place, y)
            }
            ExprKind::Binary(op, a, b) => {
                self.binary(setting, place, *op, &a.attr.ctype, &b.attr.ctype, &x, &y)
            }
            ExprKind::Assign(a, b) => {
                let t = &a.attr.ctype;
                let into = conversion(&b.attr.ctype, t);
                self.put_cast(setting, strict, place, into, b.place, t, x, y)
            }
            ExprKind::Compound(op, a, b) => {
                self.compound(
                    setting,
                    strict,
                    place,
                    *op,
                    &a.attr.ctype,
                    &b.attr.ctype,
                    x,
                    y,
                )
            }
            _ => Ok(Step::Gives(y)),
        }
    }
}
