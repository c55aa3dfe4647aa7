//! Operators (C99 6.3, 6.5; UPC 6.4).

ghost use Rattle.std.specs.Prelude.{◌*ℤ◌, pos, neg_ℤ, IfOk, IfSome};
ghost use Rattle.integers.specs.Integers.{IsInteger, IsPromoted};
ghost use Rattle.upc_types.specs.Cells.{leaves};
ghost use Rattle.upc_types.specs.View.{view, view_base};
ghost use Rattle.thread_steps.specs.Operators as operators;
ghost use Rattle.thread_steps.specs.Pointers as pointers;
ghost use Rattle.thread_values.specs.layer.Results.{IsRightKind};
ghost use Rattle.source_meaning.specs.Expressions as mean;
ghost use Rattle.source_meaning.specs.layer.Parts as parts;
ghost use Rattle.upc_meaning_state.specs.layer.Came.{Came, state_seen};
ghost use Rattle.upc_meaning_settings.specs.layer.Runners.{Fits, thread_seen};
ghost use Rattle.upc_meaning_settings.specs.layer.Settings.{running_seen};

use crate::progress::{Progress, Step};
use block_layout::Kind;
use integers::{BinOp, UnOp};
use meaning_types::{elements_of, integer_of, leaves_of, target_of};
use thread_steps::{CastTo, Elements};
use thread_values::{applied, in_row, is_zero, number_of, operated, same, truth_value};
use typing_rules::constants::working_kind;
use upc_meaning_settings::{
    Runner, Setting, advanced_on, cast_on, difference_on, is_numeric, member_on, order_on,
    right_kind,
};
use upc_text::{OutOfMemory, Place};
use upc_types::{CType, promoted};
use upc_values::{Scalar, ToldEnd, Value};

impl<'r> Progress<'r> {
    /// A conversion.
    #[tactic(auto, unfolding(thread_steps::specs::Operators::cast))]
    pub fn cast(
        &self,
        runner: Runner<'_>,
        into: CastTo,
        place: Place,
        v: Value,
    ) -> Result<Step<Value>, OutOfMemory>
        ensures { IfOk result (λ s. Came (operators.cast (thread_seen runner.entry) into place v
            (state_seen self.now)) s self.now) }
    {
        match cast_on(runner, into, v)? {
            Err(code) => Ok(Step::Ends(ToldEnd::Fault(code, place))),
            Ok(w) => Ok(Step::Gives(w)),
        }
    }

    /// The place of a member.
    #[tactic(auto, unfolding(thread_steps::specs::Pointers::member))]
    pub(crate) fn member(
        &self,
        runner: Runner<'_>,
        offset: u32,
        place: Place,
        p: Value,
    ) -> Result<Step<Value>, OutOfMemory>
        ensures { IfOk result (λ s. Came (pointers.member (thread_seen runner.entry) offset place p
            (state_seen self.now)) s self.now) }
    {
        match member_on(runner, offset, p)? {
            Err(code) => Ok(Step::Ends(ToldEnd::Fault(code, place))),
            Ok(w) => Ok(Step::Gives(w)),
        }
    }

    /// An index lies in a row of so many elements.
    pub(crate) fn within_row(
        &self,
        place: Place,
        count: Option<u32>,
        p: &Value,
        i: i128,
    ) -> Step<()>
        ensures { Came (parts.within_row place p.now i count (state_seen self.now)) result self.now }
    {
        match count {
            None => Step::Gives(()),
            Some(count) => match in_row(count, p, i) {
                Err(code) => Step::Ends(ToldEnd::Fault(code, place)),
                Ok(()) => Step::Gives(()),
            },
        }
    }

    // The pointer so many elements after another.
    #[tactic(auto, unfolding(thread_steps::specs::Pointers::advance))]
    fn advance(
        &self,
        runner: Runner<'_>,
        elements: Elements,
        place: Place,
        p: Value,
        i: i128,
    ) -> Result<Step<Value>, OutOfMemory>
        requires { Fits runner }
        ensures { IfOk result (λ s. Came (pointers.advance (thread_seen runner.entry) elements place p i
            (state_seen self.now)) s self.now) }
    {
        match advanced_on(runner, elements, p, i)? {
            Err(code) => Ok(Step::Ends(ToldEnd::Fault(code, place))),
            Ok(w) => Ok(Step::Gives(w)),
        }
    }

    /// The place so many objects of a type after another.
    pub fn behind(
        &self,
        setting: Setting<'_>,
        place: Place,
        t: &CType,
        p: Value,
        i: i128,
    ) -> Result<Step<Value>, OutOfMemory>
        requires { Fits setting.runner }
        ensures { IfOk result (λ s. Came (mean.behind (running_seen setting.entry) place (view t.now) p i
            (state_seen self.now)) s self.now) }
    {
        let Some(count) = leaves_of(&t.base) else {
            return Err(OutOfMemory);
        };
        let Some(steps) = i.checked_mul(i128::from(count)) else {
            return Err(OutOfMemory);
        };
        self.advance(
            setting.runner,
            elements_of(setting.structs, t),
            place,
            p,
            steps,
        )
    }

    #[tactic(auto, unfolding(thread_steps::specs::Pointers::difference))]
    fn difference(
        &self,
        runner: Runner<'_>,
        elements: Elements,
        place: Place,
        q: &Value,
        p: &Value,
    ) -> Result<Step<Value>, OutOfMemory>
        requires { Fits runner }
        ensures { IfOk result (λ s. Came (pointers.difference (thread_seen runner.entry) elements place q.now p.now
            (state_seen self.now)) s self.now) }
    {
        match difference_on(runner, elements, q, p)? {
            Err(code) => Ok(Step::Ends(ToldEnd::Fault(code, place))),
            Ok(w) => Ok(Step::Gives(w)),
        }
    }

    #[tactic(auto, unfolding(thread_steps::specs::Pointers::order))]
    fn order(
        &self,
        runner: Runner<'_>,
        op: BinOp,
        elements: Elements,
        place: Place,
        q: &Value,
        p: &Value,
    ) -> Result<Step<Value>, OutOfMemory>
        requires { Fits runner }
        ensures { IfOk result (λ s. Came (pointers.order (thread_seen runner.entry) op elements place q.now p.now
            (state_seen self.now)) s self.now) }
    {
        match order_on(runner, op, elements, q, p)? {
            Err(code) => Ok(Step::Ends(ToldEnd::Fault(code, place))),
            Ok(w) => Ok(Step::Gives(w)),
        }
    }

    // A binary operator on two pointers to a type.
    #[tactic(auto, unfolding(thread_steps::specs::Pointers::same))]
    fn on_pointers(
        &self,
        setting: Setting<'_>,
        place: Place,
        op: BinOp,
        t: &CType,
        x: &Value,
        y: &Value,
    ) -> Result<Step<Value>, OutOfMemory>
        requires { Fits setting.runner }
        ensures { IfOk result (λ s. Came (mean.on_pointers (running_seen setting.entry) place op (view t.now) x.now
            y.now (state_seen self.now)) s self.now) }
    {
        let elements = elements_of(setting.structs, t);
        match op {
            BinOp::Subtract => self.difference(setting.runner, elements, place, x, y),
            BinOp::Equal => Ok(Step::Gives(same(x, y))),
            BinOp::NotEqual => Ok(Step::Gives(truth_value(is_zero(&same(x, y))))),
            _ => self.order(setting.runner, op, elements, place, x, y),
        }
    }

    // On a pointer and an integer.
    fn on_pointer(
        &self,
        setting: Setting<'_>,
        place: Place,
        op: BinOp,
        t: &CType,
        x: &Value,
        y: &Value,
    ) -> Result<Step<Value>, OutOfMemory>
        requires { Fits setting.runner }
        ensures { IfOk result (λ s. Came (parts.on_pointer (running_seen setting.entry) place (view t.now) x.now y.now
            op (state_seen self.now)) s self.now) }
    {
        match op {
            BinOp::Add => self.behind(setting, place, t, *x, number_of(y)),
            BinOp::Subtract => {
                let Some(i) = number_of(y).checked_neg() else {
                    return Err(OutOfMemory);
                };
                self.behind(setting, place, t, *x, i)
            }
            _ => self.on_pointers(setting, place, op, t, x, y),
        }
    }

    // On an integer and a pointer.
    fn before_pointer(
        &self,
        setting: Setting<'_>,
        place: Place,
        op: BinOp,
        t: &CType,
        x: &Value,
        y: &Value,
    ) -> Result<Step<Value>, OutOfMemory>
        requires { Fits setting.runner }
        ensures { IfOk result (λ s. Came (parts.before_pointer (running_seen setting.entry) place (view t.now) x.now
            y.now op (state_seen self.now)) s self.now) }
    {
        match op {
            BinOp::Add => self.behind(setting, place, t, *y, number_of(x)),
            _ => self.on_pointers(setting, place, op, t, x, y),
        }
    }

    #[tactic(auto, unfolding(thread_steps::specs::Operators::operate))]
    fn operate(
        &self,
        op: BinOp,
        left: Kind,
        right: Kind,
        place: Place,
        x: &Value,
        y: &Value,
    ) -> Result<Step<Value>, OutOfMemory>
        requires left { IsPromoted left }
        requires right { IsPromoted right }
        requires fits { IsRightKind op left right }
        ensures { IfOk result (λ s. Came (operators.operate op left right place x.now y.now (state_seen self.now)) s
            self.now) }
    {
        if !is_numeric(x) || !is_numeric(y) {
            return Err(OutOfMemory);
        }
        match operated(op, left, right, x, y) {
            Err(code) => Ok(Step::Ends(ToldEnd::Fault(code, place))),
            Ok(w) => Ok(Step::Gives(w)),
        }
    }

    // On two integers.
    fn integers(
        &self,
        place: Place,
        op: BinOp,
        left: Option<Kind>,
        right: Option<Kind>,
        x: &Value,
        y: &Value,
    ) -> Result<Step<Value>, OutOfMemory>
        requires left { IfSome left IsInteger }
        requires right { IfSome right IsInteger }
        ensures { IfOk result (λ s. Came (parts.integers place op left right x.now y.now (state_seen self.now)) s
            self.now) }
    {
        match (left, right) {
            (Some(j), Some(k)) => {
                let working = working_kind(op, j, k);
                self.operate(op, working, right_kind(op, j, k), place, x, y)
            }
            _ => Ok(Step::Gives(Value::Scalar(Scalar::Int(0)))),
        }
    }

    /// A binary operator on values of two types.
    pub(crate) fn binary(
        &self,
        setting: Setting<'_>,
        place: Place,
        op: BinOp,
        left: &CType,
        right: &CType,
        x: &Value,
        y: &Value,
    ) -> Result<Step<Value>, OutOfMemory>
        requires { Fits setting.runner }
        ensures { IfOk result (λ s. Came (mean.binary (running_seen setting.entry) place op (view left.now)
            (view right.now) x.now y.now (state_seen self.now)) s self.now) }
    {
        match (target_of(left), target_of(right)) {
            (Some(t), Some(_)) => self.on_pointers(setting, place, op, t, x, y),
            (Some(t), None) => self.on_pointer(setting, place, op, t, x, y),
            (None, Some(u)) => self.before_pointer(setting, place, op, u, x, y),
            (None, None) => self.integers(place, op, integer_of(left), integer_of(right), x, y),
        }
    }

    #[tactic(auto, unfolding(thread_steps::specs::Operators::apply))]
    fn apply(
        &self,
        op: UnOp,
        kind: Kind,
        place: Place,
        v: &Value,
    ) -> Result<Step<Value>, OutOfMemory>
        requires { IsPromoted kind }
        ensures { IfOk result (λ s. Came (operators.apply op kind place v.now (state_seen self.now)) s self.now) }
    {
        if !is_numeric(v) {
            return Err(OutOfMemory);
        }
        match applied(op, kind, v) {
            Err(code) => Ok(Step::Ends(ToldEnd::Fault(code, place))),
            Ok(w) => Ok(Step::Gives(w)),
        }
    }

    /// A unary operator.
    pub(crate) fn unary(
        &self,
        place: Place,
        op: UnOp,
        kind: Option<Kind>,
        v: &Value,
    ) -> Result<Step<Value>, OutOfMemory>
        requires { IfSome kind IsInteger }
        ensures { IfOk result (λ s. Came (mean.unary place op kind v.now (state_seen self.now)) s self.now) }
    {
        match (op, kind) {
            (UnOp::Not, _) => Ok(Step::Gives(truth_value(is_zero(v)))),
            (_, Some(kind)) => self.apply(op, promoted(kind), place, v),
            (_, None) => Ok(Step::Gives(Value::Scalar(Scalar::Int(0)))),
        }
    }
}
