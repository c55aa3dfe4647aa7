//! What holds of the code of every expression.

ghost use Rattle.gen_expr.specs.layer.Meanings.{EffectsAreMeant, ExpressionsAreMeant};
ghost use Rattle.gen_expr.specs.code.Depths.{EffectsAreDeep, ExpressionsAreDeep};

/// The code of an expression does what the expression does.
pub fn expressions_keep_their_meaning()
    ensures { ExpressionsAreMeant }
{}

/// The depths of the code of an expression agree.
pub fn expressions_leave_a_value()
    ensures { ExpressionsAreDeep }
{}

/// The code of an expression for what it does alone does what the expression does, and leaves no value.
pub fn effects_keep_their_meaning()
    ensures { EffectsAreMeant }
{}

/// The depths of the code of an expression for what it does alone agree.
pub fn effects_leave_nothing()
    ensures { EffectsAreDeep }
{}
