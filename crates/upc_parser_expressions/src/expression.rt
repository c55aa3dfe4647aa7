//! Expressions (C99 6.5, UPC 6.4).

ghost use Rattle.std.specs.Prelude.{◌≡◌, ◌≤◌, ◌<◌, nat_le, length};
ghost use Rattle.upc_tree.specs.Expression.{height};
ghost use Rattle.upc_tree.specs.Proper.{level};
ghost use Rattle.upc_tree.specs.layer.View.{view, view_arguments, view_next_expr, view_next_exprs};
ghost use Rattle.upc_parser_types.specs.layer.Expression as spec;
ghost use Rattle.upc_parser_types.specs.layer.Expression.{at_height};
ghost use Rattle.upc_parser_ground.specs.layer.Outcome.{span_of, string};
ghost use Rattle.upc_parser_ground.specs.layer.Run.{Reads, boxed, same};
ghost use Rattle.upc_parser_types.specs.layer.Run.{Nests};

use std::alloc::Global;
use upc_lexer::{Punct, Token, TokenKind, Word};
use upc_parser_ground::expressions::{
    arguments, assign, binary, call, cast, character, comma, conditional, constant, member_of,
    named, number, paren, size_of_expr, size_of_type, step, string_literals, subscript, unary,
};
use upc_parser_ground::{
    Ahead, Fail, Fault, Joint, Prefix, Sign, Suffix, Tokens, boxed, expect_punct, joint_level,
    joint_of, left_least, many, name, operand_level, prefix_of, span_of, starts, starts_two,
    suffix_of,
};
use upc_parser_types::Grammar;
use upc_text::Text;
use upc_tree::{
    Arguments, AssignMark, BinaryMark, ConstantWord, Expr, MemberMark, Name, NextExpr, PostfixMark,
    SizeWord, Span, Spec, StringLiteral, UnaryMark, expr_height,
};

/// Whether the tree is no higher than n.
fn fits(e: &Expr, n: u32) -> bool
    requires { n < 4294967295 }
    ensures { result ≡ nat_le (height (view e.now)) n }
{
    expr_height(e) <= n
}

fn string(alloc: Global, tokens: &mut Tokens<'_>) -> Result<StringLiteral, Fail>
    ensures { Reads same (string tokens.old.rest.now) result tokens.new.rest.now }
{
    match tokens.rest {
        [] => Err(Fail::Fault(Fault::NoTree)),
        [first, rest @ ..] => match &first.kind {
            TokenKind::Str(bytes) => {
                tokens.rest = rest;
                Ok(StringLiteral {
                    bytes: bytes.copy(alloc)?,
                    span: span_of(first),
                })
            }
            _ => Err(Fail::Fault(Fault::NoTree)),
        },
    }
}

fn strings(alloc: Global, tokens: &mut Tokens<'_>) -> Result<Vec<StringLiteral>, Fail>
    ensures { Reads (λ v. v.items) (spec.strings tokens.old.rest.now) result tokens.new.rest.now }
{
    many(
        alloc,
        tokens,
        Ahead::One(Sign::String),
        |t| string(alloc, t),
    )
}

fn opens_type(rest: &[Token]) -> bool
    ensures { result ≡ spec.opens_type rest.now }
{
    starts_two(Sign::Punct(Punct::LParen), Sign::Spec(false), rest)
}

fn level(e: &Expr) -> u8
    ensures { result ≡ level (view e.now) }
{
    match e {
        Expr::Comma { .. } => 0,
        Expr::Assign { .. } => 1,
        Expr::Conditional { .. } => 2,
        Expr::Binary { mark, .. } => joint_level(Joint::Binary(*mark)),
        Expr::Cast { .. } => 13,
        Expr::Unary { .. } | Expr::SizeOfExpr { .. } | Expr::SizeOfType { .. } => 14,
        _ => 15,
    }
}

fn goes_on(least: u8, left: &Expr, joint: Joint) -> bool
    ensures { result ≡ spec.goes_on least (view left.now) joint }
{
    least <= joint_level(joint) && left_least(joint) <= level(left)
}

/// The rules of expressions, as methods beside those of types.
#[derive(Drop)]
pub struct Expressions<F, G> {
    pub types: Grammar<F, G>,
}

impl<
    F: Fn(Global, &mut Tokens<'_>, u32, u8) -> Result<Box<Expr>, Fail>,
    G: Fn(Global, &mut Tokens<'_>, u32) -> Result<Spec, Fail>,
> Expressions<F, G> {
    #[tactic(auto, unfolding(upc_parser_types::specs::layer::Expression::next_expr))]
    fn next_expr(&self, tokens: &mut Tokens<'_>, n: u32) -> Result<NextExpr, Fail>
        requires within { n ≤ self.now.types.below }
        requires nests { Nests self.now.types.below (F.pre self.now.types.expr) (F.post self.now.types.expr)
            (G.pre self.now.types.structure) (G.post self.now.types.structure) }
        ensures { Reads view_next_expr (spec.next_expr (at_height n) tokens.old.rest.now) result tokens.new.rest.now }
    {
        let comma = expect_punct(tokens, Punct::Comma)?;
        let value = self.types.expr(tokens, n, 1)?;
        Ok(NextExpr { comma, value })
    }

    pub fn next_exprs(&self, tokens: &mut Tokens<'_>, n: u32) -> Result<Vec<NextExpr>, Fail>
        requires within { n ≤ self.now.types.below }
        requires nests { Nests self.now.types.below (F.pre self.now.types.expr) (F.post self.now.types.expr)
            (G.pre self.now.types.structure) (G.post self.now.types.structure) }
        ensures { Reads view_next_exprs (spec.next_exprs (at_height n) tokens.old.rest.now) result tokens.new.rest.now }
    {
        many(
            self.types.alloc,
            tokens,
            Ahead::One(Sign::Punct(Punct::Comma)),
            |t| self.next_expr(t, n),
        )
    }

    #[tactic(auto, unfolding(upc_parser_types::specs::layer::Expression::some_arguments))]
    fn some_arguments(&self, tokens: &mut Tokens<'_>, n: u32) -> Result<Box<Arguments>, Fail>
        requires within { n ≤ self.now.types.below }
        requires nests { Nests self.now.types.below (F.pre self.now.types.expr) (F.post self.now.types.expr)
            (G.pre self.now.types.structure) (G.post self.now.types.structure) }
        ensures { Reads (boxed view_arguments) (spec.some_arguments (at_height n)
            tokens.old.rest.now) result tokens.new.rest.now }
    {
        let first = self.types.expr(tokens, n, 1)?;
        let more = self.next_exprs(tokens, n)?;
        let right = expect_punct(tokens, Punct::RParen)?;
        Ok(arguments(self.types.alloc, first, more, right)?)
    }

    #[tactic(auto, unfolding(upc_parser_types::specs::layer::Expression::arguments))]
    fn whole_arguments(&self, tokens: &mut Tokens<'_>, n: u32) -> Result<Box<Arguments>, Fail>
        requires within { n ≤ self.now.types.below }
        requires nests { Nests self.now.types.below (F.pre self.now.types.expr) (F.post self.now.types.expr)
            (G.pre self.now.types.structure) (G.post self.now.types.structure) }
        ensures { Reads (boxed view_arguments) (spec.arguments (at_height n) tokens.old.rest.now)
            result tokens.new.rest.now }
    {
        if starts(Sign::Punct(Punct::RParen), tokens.rest) {
            let close = expect_punct(tokens, Punct::RParen)?;
            return Ok(boxed(self.types.alloc, Arguments::Empty { close })?);
        }
        self.some_arguments(tokens, n)
    }

    fn arguments(&self, tokens: &mut Tokens<'_>, n: u32) -> Result<Box<Arguments>, Fail>
        requires within { n ≤ self.now.types.below }
        requires nests { Nests self.now.types.below (F.pre self.now.types.expr) (F.post self.now.types.expr)
            (G.pre self.now.types.structure) (G.post self.now.types.structure) }
        ensures { Reads (boxed view_arguments) ((at_height n).arguments tokens.old.rest.now) result
            tokens.new.rest.now }
    {
        if n == 0 {
            return Err(Fail::Fault(Fault::TooHigh));
        }
        self.whole_arguments(tokens, n - 1)
    }

    #[tactic(auto, unfolding(upc_parser_types::specs::layer::Expression::unary))]
    fn unary(
        &self,
        tokens: &mut Tokens<'_>,
        n: u32,
        mark: UnaryMark,
        at: Span,
    ) -> Result<Box<Expr>, Fail>
        requires within { n ≤ self.now.types.below }
        requires nests { Nests self.now.types.below (F.pre self.now.types.expr) (F.post self.now.types.expr)
            (G.pre self.now.types.structure) (G.post self.now.types.structure) }
        ensures { Reads (boxed view) (spec.unary (at_height n) mark at tokens.old.rest.now) result tokens.new.rest.now }
    {
        let operand = self.types.expr(tokens, n, operand_level(mark))?;
        Ok(unary(self.types.alloc, mark, at, operand)?)
    }

    #[tactic(auto, unfolding(upc_parser_types::specs::layer::Expression::size_type))]
    fn size_type(
        &self,
        tokens: &mut Tokens<'_>,
        n: u32,
        word: SizeWord,
        at: Span,
    ) -> Result<Box<Expr>, Fail>
        requires within { n ≤ self.now.types.below }
        requires nests { Nests self.now.types.below (F.pre self.now.types.expr) (F.post self.now.types.expr)
            (G.pre self.now.types.structure) (G.post self.now.types.structure) }
        ensures { Reads (boxed view) (spec.size_type (at_height n) word at tokens.old.rest.now)
            result tokens.new.rest.now }
    {
        let left = expect_punct(tokens, Punct::LParen)?;
        let operand = self.types.type_name(tokens, n)?;
        let right = expect_punct(tokens, Punct::RParen)?;
        Ok(size_of_type(self.types.alloc, word, at, left, operand, right)?)
    }

    #[tactic(auto, unfolding(upc_parser_types::specs::layer::Expression::size_expr))]
    fn size_expr(
        &self,
        tokens: &mut Tokens<'_>,
        n: u32,
        word: SizeWord,
        at: Span,
    ) -> Result<Box<Expr>, Fail>
        requires within { n ≤ self.now.types.below }
        requires nests { Nests self.now.types.below (F.pre self.now.types.expr) (F.post self.now.types.expr)
            (G.pre self.now.types.structure) (G.post self.now.types.structure) }
        ensures { Reads (boxed view) (spec.size_expr (at_height n) word at tokens.old.rest.now)
            result tokens.new.rest.now }
    {
        let operand = self.types.expr(tokens, n, 14)?;
        Ok(size_of_expr(self.types.alloc, word, at, operand)?)
    }

    fn size(
        &self,
        tokens: &mut Tokens<'_>,
        n: u32,
        word: SizeWord,
        at: Span,
    ) -> Result<Box<Expr>, Fail>
        requires within { n ≤ self.now.types.below }
        requires nests { Nests self.now.types.below (F.pre self.now.types.expr) (F.post self.now.types.expr)
            (G.pre self.now.types.structure) (G.post self.now.types.structure) }
        ensures { Reads (boxed view) (spec.size (at_height n) word at tokens.old.rest.now) result tokens.new.rest.now }
    {
        if opens_type(tokens.rest) {
            return self.size_type(tokens, n, word, at);
        }
        self.size_expr(tokens, n, word, at)
    }

    #[tactic(auto, unfolding(upc_parser_types::specs::layer::Expression::cast))]
    fn cast(&self, tokens: &mut Tokens<'_>, n: u32) -> Result<Box<Expr>, Fail>
        requires within { n ≤ self.now.types.below }
        requires nests { Nests self.now.types.below (F.pre self.now.types.expr) (F.post self.now.types.expr)
            (G.pre self.now.types.structure) (G.post self.now.types.structure) }
        ensures { Reads (boxed view) (spec.cast (at_height n) tokens.old.rest.now) result tokens.new.rest.now }
    {
        let left = expect_punct(tokens, Punct::LParen)?;
        let target = self.types.plain_type(tokens, n)?;
        let right = expect_punct(tokens, Punct::RParen)?;
        let operand = self.types.expr(tokens, n, 13)?;
        Ok(cast(self.types.alloc, left, target, right, operand)?)
    }

    #[tactic(auto, unfolding(upc_parser_types::specs::layer::Expression::paren))]
    fn paren(&self, tokens: &mut Tokens<'_>, n: u32, left: Span) -> Result<Box<Expr>, Fail>
        requires within { n ≤ self.now.types.below }
        requires nests { Nests self.now.types.below (F.pre self.now.types.expr) (F.post self.now.types.expr)
            (G.pre self.now.types.structure) (G.post self.now.types.structure) }
        ensures { Reads (boxed view) (spec.paren (at_height n) left tokens.old.rest.now) result tokens.new.rest.now }
    {
        let inner = self.types.expr(tokens, n, 0)?;
        let right = expect_punct(tokens, Punct::RParen)?;
        Ok(paren(self.types.alloc, left, inner, right)?)
    }

    fn string_run(
        &self,
        tokens: &mut Tokens<'_>,
        n: u32,
        bytes: &Text,
        span: Span,
    ) -> Result<Box<Expr>, Fail>
        requires within { n ≤ self.now.types.below }
        requires nests { Nests self.now.types.below (F.pre self.now.types.expr) (F.post self.now.types.expr)
            (G.pre self.now.types.structure) (G.post self.now.types.structure) }
        ensures { Reads (boxed view) (spec.primary_by (at_height n) (TokenKind.Str bytes.now) span
            tokens.old.rest.now) result tokens.new.rest.now }
    {
        let bytes = bytes.copy(self.types.alloc)?;
        let more = strings(self.types.alloc, tokens)?;
        Ok(string_literals(self.types.alloc, StringLiteral { bytes, span }, more)?)
    }

    fn primary_by<'a>(
        &self,
        tokens: &mut Tokens<'a>,
        n: u32,
        first: &Token,
        rest: &'a [Token],
    ) -> Result<Box<Expr>, Fail>
        requires within { n ≤ self.now.types.below }
        requires nests { Nests self.now.types.below (F.pre self.now.types.expr) (F.post self.now.types.expr)
            (G.pre self.now.types.structure) (G.post self.now.types.structure) }
        ensures { Reads (boxed view) (spec.primary_by (at_height n) first.now.kind
            (span_of first.now) rest.now) result tokens.new.rest.now }
    {
        let span = span_of(first);
        match &first.kind {
            TokenKind::Name(number) => {
                tokens.rest = rest;
                let number = *number;
                Ok(named(self.types.alloc, Name { number, span })?)
            }
            TokenKind::Number { value, kind } => {
                tokens.rest = rest;
                Ok(number(self.types.alloc, *value, *kind, span)?)
            }
            TokenKind::Character(value) => {
                tokens.rest = rest;
                Ok(character(self.types.alloc, *value, span)?)
            }
            TokenKind::Str(bytes) => {
                tokens.rest = rest;
                self.string_run(tokens, n, bytes, span)
            }
            TokenKind::Word(Word::Mythread) => {
                tokens.rest = rest;
                Ok(constant(self.types.alloc, ConstantWord::Mythread, span)?)
            }
            TokenKind::Word(Word::Threads) => {
                tokens.rest = rest;
                Ok(constant(self.types.alloc, ConstantWord::Threads, span)?)
            }
            TokenKind::Word(Word::UpcMaxBlockSize) => {
                tokens.rest = rest;
                Ok(constant(self.types.alloc, ConstantWord::MaxBlockSize, span)?)
            }
            TokenKind::Punct(Punct::LParen) => {
                tokens.rest = rest;
                self.paren(tokens, n, span)
            }
            _ => Err(Fail::Fault(Fault::NoTree)),
        }
    }

    fn subscripted(
        &self,
        tokens: &mut Tokens<'_>,
        n: u32,
        base: Box<Expr>,
        at: Span,
    ) -> Result<Box<Expr>, Fail>
        requires within { n ≤ self.now.types.below }
        requires nests { Nests self.now.types.below (F.pre self.now.types.expr) (F.post self.now.types.expr)
            (G.pre self.now.types.structure) (G.post self.now.types.structure) }
        ensures { Reads (boxed view) (spec.suffixed n (at_height n) Suffix.Subscript
            (view base.value) at tokens.old.rest.now) result tokens.new.rest.now }
    {
        let index = self.types.expr(tokens, n, 0)?;
        let right = expect_punct(tokens, Punct::RBracket)?;
        if !fits(&base, n) {
            return Err(Fail::Fault(Fault::TooHigh));
        }
        Ok(subscript(self.types.alloc, base, at, index, right)?)
    }

    fn called(
        &self,
        tokens: &mut Tokens<'_>,
        n: u32,
        base: Box<Expr>,
        at: Span,
    ) -> Result<Box<Expr>, Fail>
        requires within { n ≤ self.now.types.below }
        requires nests { Nests self.now.types.below (F.pre self.now.types.expr) (F.post self.now.types.expr)
            (G.pre self.now.types.structure) (G.post self.now.types.structure) }
        ensures { Reads (boxed view) (spec.suffixed n (at_height n) Suffix.Call (view base.value) at
            tokens.old.rest.now) result tokens.new.rest.now }
    {
        let arguments = self.arguments(tokens, n)?;
        if !fits(&base, n) {
            return Err(Fail::Fault(Fault::TooHigh));
        }
        Ok(call(self.types.alloc, base, at, arguments)?)
    }

    fn member_named(
        &self,
        tokens: &mut Tokens<'_>,
        n: u32,
        mark: MemberMark,
        base: Box<Expr>,
        at: Span,
    ) -> Result<Box<Expr>, Fail>
        requires within { n ≤ self.now.types.below }
        requires nests { Nests self.now.types.below (F.pre self.now.types.expr) (F.post self.now.types.expr)
            (G.pre self.now.types.structure) (G.post self.now.types.structure) }
        ensures { Reads (boxed view) (spec.suffixed n (at_height n) (Suffix.Member mark)
            (view base.value) at tokens.old.rest.now) result tokens.new.rest.now }
    {
        let member = name(tokens)?;
        if !fits(&base, n) {
            return Err(Fail::Fault(Fault::TooHigh));
        }
        Ok(member_of(self.types.alloc, base, mark, at, member)?)
    }

    fn stepped(
        &self,
        tokens: &mut Tokens<'_>,
        n: u32,
        mark: PostfixMark,
        base: Box<Expr>,
        at: Span,
    ) -> Result<Box<Expr>, Fail>
        requires within { n ≤ self.now.types.below }
        requires nests { Nests self.now.types.below (F.pre self.now.types.expr) (F.post self.now.types.expr)
            (G.pre self.now.types.structure) (G.post self.now.types.structure) }
        ensures { Reads (boxed view) (spec.suffixed n (at_height n) (Suffix.Step mark)
            (view base.value) at tokens.old.rest.now) result tokens.new.rest.now }
    {
        if !fits(&base, n) {
            return Err(Fail::Fault(Fault::TooHigh));
        }
        Ok(step(self.types.alloc, base, mark, at)?)
    }

    fn suffixed(
        &self,
        tokens: &mut Tokens<'_>,
        n: u32,
        suffix: Suffix,
        base: Box<Expr>,
        at: Span,
    ) -> Result<Box<Expr>, Fail>
        requires within { n ≤ self.now.types.below }
        requires nests { Nests self.now.types.below (F.pre self.now.types.expr) (F.post self.now.types.expr)
            (G.pre self.now.types.structure) (G.post self.now.types.structure) }
        ensures { Reads (boxed view) (spec.suffixed n (at_height n) suffix (view base.value) at
            tokens.old.rest.now) result tokens.new.rest.now }
    {
        match suffix {
            Suffix::Subscript => self.subscripted(tokens, n, base, at),
            Suffix::Call => self.called(tokens, n, base, at),
            Suffix::Member(mark) => self.member_named(tokens, n, mark, base, at),
            Suffix::Step(mark) => self.stepped(tokens, n, mark, base, at),
        }
    }

    fn postfix(
        &self,
        tokens: &mut Tokens<'_>,
        n: u32,
        mut base: Box<Expr>,
    ) -> Result<Box<Expr>, Fail>
        requires within { n ≤ self.now.types.below }
        requires nests { Nests self.now.types.below (F.pre self.now.types.expr) (F.post self.now.types.expr)
            (G.pre self.now.types.structure) (G.post self.now.types.structure) }
        ensures { Reads (boxed view) (spec.postfix n (at_height n) (length tokens.old.rest.now)
            (view base.value) tokens.old.rest.now) result tokens.new.rest.now }
    {
        for _turn in 0..tokens.rest.len() {
            let [first, rest @ ..] = tokens.rest else {
                return Ok(base);
            };
            let Some(suffix) = suffix_of(&first.kind) else {
                return Ok(base);
            };
            tokens.rest = rest;
            base = self.suffixed(tokens, n, suffix, base, span_of(first))?;
        }
        Ok(base)
    }

    #[tactic(auto, unfolding(upc_parser_types::specs::layer::Expression::primary))]
    fn primary<'a>(
        &self,
        tokens: &mut Tokens<'a>,
        n: u32,
        first: &Token,
        rest: &'a [Token],
    ) -> Result<Box<Expr>, Fail>
        requires within { n ≤ self.now.types.below }
        requires nests { Nests self.now.types.below (F.pre self.now.types.expr) (F.post self.now.types.expr)
            (G.pre self.now.types.structure) (G.post self.now.types.structure) }
        ensures { Reads (boxed view) (spec.primary n (at_height n) first.now rest.now) result tokens.new.rest.now }
    {
        let base = self.primary_by(tokens, n, first, rest)?;
        self.postfix(tokens, n, base)
    }

    #[tactic(auto, unfolding(upc_parser_types::specs::layer::Expression::first))]
    fn first(&self, tokens: &mut Tokens<'_>, n: u32, least: u8) -> Result<Box<Expr>, Fail>
        requires within { n ≤ self.now.types.below }
        requires nests { Nests self.now.types.below (F.pre self.now.types.expr) (F.post self.now.types.expr)
            (G.pre self.now.types.structure) (G.post self.now.types.structure) }
        ensures { Reads (boxed view) (spec.first n (at_height n) least tokens.old.rest.now) result tokens.new.rest.now }
    {
        match tokens.rest {
            [] => Err(Fail::Fault(Fault::NoTree)),
            [first, rest @ ..] => match prefix_of(&first.kind) {
                Prefix::Unary(mark) => {
                    tokens.rest = rest;
                    self.unary(tokens, n, mark, span_of(first))
                }
                Prefix::Size(word) => {
                    tokens.rest = rest;
                    self.size(tokens, n, word, span_of(first))
                }
                Prefix::Other => {
                    if !opens_type(tokens.rest) {
                        return self.primary(tokens, n, first, rest);
                    }
                    if least > 13 {
                        tokens.rest = rest;
                        return Err(Fail::Fault(Fault::NoTree));
                    }
                    self.cast(tokens, n)
                }
            },
        }
    }

    #[tactic(auto, unfolding(upc_parser_types::specs::layer::Expression::joined_comma))]
    fn joined_comma(
        &self,
        tokens: &mut Tokens<'_>,
        n: u32,
        left: Box<Expr>,
    ) -> Result<Box<Expr>, Fail>
        requires within { n ≤ self.now.types.below }
        requires nests { Nests self.now.types.below (F.pre self.now.types.expr) (F.post self.now.types.expr)
            (G.pre self.now.types.structure) (G.post self.now.types.structure) }
        ensures { Reads (boxed view) (spec.joined_comma n (at_height n) (view left.value)
            tokens.old.rest.now) result tokens.new.rest.now }
    {
        let more = self.next_exprs(tokens, n)?;
        if !fits(&left, n) {
            return Err(Fail::Fault(Fault::TooHigh));
        }
        Ok(comma(self.types.alloc, left, more)?)
    }

    #[tactic(auto, unfolding(upc_parser_types::specs::layer::Expression::conditional))]
    fn conditional(
        &self,
        tokens: &mut Tokens<'_>,
        n: u32,
        left: Box<Expr>,
        at: Span,
    ) -> Result<Box<Expr>, Fail>
        requires within { n ≤ self.now.types.below }
        requires nests { Nests self.now.types.below (F.pre self.now.types.expr) (F.post self.now.types.expr)
            (G.pre self.now.types.structure) (G.post self.now.types.structure) }
        ensures { Reads (boxed view) (spec.conditional n (at_height n) (view left.value) at
            tokens.old.rest.now) result tokens.new.rest.now }
    {
        let chosen = self.types.expr(tokens, n, 0)?;
        let colon = expect_punct(tokens, Punct::Colon)?;
        let other = self.types.expr(tokens, n, 2)?;
        if !fits(&left, n) {
            return Err(Fail::Fault(Fault::TooHigh));
        }
        Ok(conditional(self.types.alloc, left, at, chosen, colon, other)?)
    }

    fn assigned(
        &self,
        tokens: &mut Tokens<'_>,
        n: u32,
        mark: AssignMark,
        left: Box<Expr>,
        first: &Token,
    ) -> Result<Box<Expr>, Fail>
        requires within { n ≤ self.now.types.below }
        requires nests { Nests self.now.types.below (F.pre self.now.types.expr) (F.post self.now.types.expr)
            (G.pre self.now.types.structure) (G.post self.now.types.structure) }
        ensures { Reads (boxed view) (spec.joined n (at_height n) (Joint.Assign mark)
            (view left.value) first.now tokens.old.rest.now) result tokens.new.rest.now }
    {
        let right = self.types.expr(tokens, n, 1)?;
        if !fits(&left, n) {
            return Err(Fail::Fault(Fault::TooHigh));
        }
        Ok(assign(self.types.alloc, left, mark, span_of(first), right)?)
    }

    fn combined(
        &self,
        tokens: &mut Tokens<'_>,
        n: u32,
        mark: BinaryMark,
        left: Box<Expr>,
        first: &Token,
    ) -> Result<Box<Expr>, Fail>
        requires within { n ≤ self.now.types.below }
        requires nests { Nests self.now.types.below (F.pre self.now.types.expr) (F.post self.now.types.expr)
            (G.pre self.now.types.structure) (G.post self.now.types.structure) }
        ensures { Reads (boxed view) (spec.joined n (at_height n) (Joint.Binary mark)
            (view left.value) first.now tokens.old.rest.now) result tokens.new.rest.now }
    {
        let right = self
            .types
            .expr(tokens, n, joint_level(Joint::Binary(mark)) + 1)?;
        if !fits(&left, n) {
            return Err(Fail::Fault(Fault::TooHigh));
        }
        Ok(binary(self.types.alloc, left, mark, span_of(first), right)?)
    }

    fn joined(
        &self,
        tokens: &mut Tokens<'_>,
        n: u32,
        joint: Joint,
        left: Box<Expr>,
    ) -> Result<Box<Expr>, Fail>
        requires within { n ≤ self.now.types.below }
        requires nests { Nests self.now.types.below (F.pre self.now.types.expr) (F.post self.now.types.expr)
            (G.pre self.now.types.structure) (G.post self.now.types.structure) }
        ensures { Reads (boxed view) (spec.joined_at n (at_height n) joint (view left.value)
            tokens.old.rest.now) result tokens.new.rest.now }
    {
        let [first, rest @ ..] = tokens.rest else {
            return Err(Fail::Fault(Fault::NoTree));
        };
        match joint {
            Joint::Comma => self.joined_comma(tokens, n, left),
            Joint::Question => {
                tokens.rest = rest;
                self.conditional(tokens, n, left, span_of(first))
            }
            Joint::Assign(mark) => {
                tokens.rest = rest;
                self.assigned(tokens, n, mark, left, first)
            }
            Joint::Binary(mark) => {
                tokens.rest = rest;
                self.combined(tokens, n, mark, left, first)
            }
        }
    }

    fn climb(
        &self,
        tokens: &mut Tokens<'_>,
        n: u32,
        least: u8,
        mut left: Box<Expr>,
    ) -> Result<Box<Expr>, Fail>
        requires within { n ≤ self.now.types.below }
        requires nests { Nests self.now.types.below (F.pre self.now.types.expr) (F.post self.now.types.expr)
            (G.pre self.now.types.structure) (G.post self.now.types.structure) }
        ensures { Reads (boxed view) (spec.climb n (at_height n) (length tokens.old.rest.now) least
            (view left.value) tokens.old.rest.now) result tokens.new.rest.now }
    {
        for _turn in 0..tokens.rest.len() {
            let [first, ..] = tokens.rest else {
                return Ok(left);
            };
            let Some(joint) = joint_of(&first.kind) else {
                return Ok(left);
            };
            if !goes_on(least, &left, joint) {
                return Ok(left);
            }
            left = self.joined(tokens, n, joint, left)?;
        }
        Ok(left)
    }

    #[tactic(auto, unfolding(upc_parser_types::specs::layer::Expression::expr))]
    pub fn whole(&self, tokens: &mut Tokens<'_>, n: u32, least: u8) -> Result<Box<Expr>, Fail>
        requires within { n ≤ self.now.types.below }
        requires nests { Nests self.now.types.below (F.pre self.now.types.expr) (F.post self.now.types.expr)
            (G.pre self.now.types.structure) (G.post self.now.types.structure) }
        ensures { Reads (boxed view) (spec.expr n (at_height n) least tokens.old.rest.now) result tokens.new.rest.now }
    {
        let left = self.first(tokens, n, least)?;
        self.climb(tokens, n, least, left)
    }
}
