//! Types (C99 6.7.2, 6.7.3, 6.7.6; UPC 6.5.1).

ghost use Rattle.std.specs.Prelude.{◌≡◌, ◌≤◌};
ghost use Rattle.upc_tree.specs.layer.View.{view_type, view_spec, view_specs, view_qual, view_quals, view_layout};
ghost use Rattle.upc_tree.specs.layer.View.{view_pointer, view_pointers, view_dimension, view_dimensions};
ghost use Rattle.upc_parser_types.specs.layer.Expression as spec;
ghost use Rattle.upc_parser_types.specs.layer.Expression.{at_height};
ghost use Rattle.upc_parser_ground.specs.layer.Outcome.{span_of};
ghost use Rattle.upc_parser_ground.specs.layer.Run.{Reads, boxed};
ghost use Rattle.upc_parser_types.specs.layer.Run.{Nests};

use crate::grammar::Grammar;
use std::alloc::Global;
use upc_lexer::{Punct, Token};
use upc_parser_ground::expressions::{block_layout, type_name};
use upc_parser_ground::{
    Ahead, Fail, Fault, QualWord, Sign, SpecStart, Tokens, boxed, expect_punct, many, qual_start,
    span_of, spec_start, starts, starts_two,
};
use upc_tree::{Dimension, Expr, Layout, Pointer, Qual, Span, Spec, TypeName};

fn star_fills(rest: &[Token]) -> bool
    ensures { result ≡ spec.star_fills rest.now }
{
    match rest {
        [] => false,
        [_, rest @ ..] => starts_two(Sign::Punct(Punct::Star), Sign::Punct(Punct::RBracket), rest),
    }
}

impl<
    F: Fn(Global, &mut Tokens<'_>, u32, u8) -> Result<Box<Expr>, Fail>,
    G: Fn(Global, &mut Tokens<'_>, u32) -> Result<Spec, Fail>,
> Grammar<F, G> {
    /// A size in brackets.
    #[tactic(auto, unfolding(crate::specs::layer::Expression::dimension))]
    pub fn dimension(&self, tokens: &mut Tokens<'_>, n: u32) -> Result<Dimension, Fail>
        requires within { n ≤ self.now.below }
        requires nests { Nests self.now.below (F.pre self.now.expr) (F.post self.now.expr)
            (G.pre self.now.structure) (G.post self.now.structure) }
        ensures { Reads view_dimension (spec.dimension (at_height n) tokens.old.rest.now) result tokens.new.rest.now }
    {
        let open = expect_punct(tokens, Punct::LBracket)?;
        let size = self.expr(tokens, n, 2)?;
        let close = expect_punct(tokens, Punct::RBracket)?;
        Ok(Dimension { open, size, close })
    }

    /// Sizes in brackets.
    pub fn dimensions(&self, tokens: &mut Tokens<'_>, n: u32) -> Result<Vec<Dimension>, Fail>
        requires within { n ≤ self.now.below }
        requires nests { Nests self.now.below (F.pre self.now.expr) (F.post self.now.expr)
            (G.pre self.now.structure) (G.post self.now.structure) }
        ensures { Reads view_dimensions (spec.dimensions (at_height n) tokens.old.rest.now) result tokens.new.rest.now }
    {
        many(
            self.alloc,
            tokens,
            Ahead::One(Sign::Punct(Punct::LBracket)),
            |t| self.dimension(t, n),
        )
    }

    #[tactic(auto, unfolding(crate::specs::layer::Expression::empty_layout))]
    fn empty_layout(&self, tokens: &mut Tokens<'_>, n: u32) -> Result<Box<Layout>, Fail>
        requires within { n ≤ self.now.below }
        requires nests { Nests self.now.below (F.pre self.now.expr) (F.post self.now.expr)
            (G.pre self.now.structure) (G.post self.now.structure) }
        ensures { Reads (boxed view_layout) (spec.empty_layout (at_height n) tokens.old.rest.now)
            result tokens.new.rest.now }
    {
        let open = expect_punct(tokens, Punct::LBracket)?;
        let close = expect_punct(tokens, Punct::RBracket)?;
        Ok(boxed(self.alloc, Layout::Indefinite { open, close })?)
    }

    #[tactic(auto, unfolding(crate::specs::layer::Expression::star_layout))]
    fn star_layout(&self, tokens: &mut Tokens<'_>, n: u32) -> Result<Box<Layout>, Fail>
        requires within { n ≤ self.now.below }
        requires nests { Nests self.now.below (F.pre self.now.expr) (F.post self.now.expr)
            (G.pre self.now.structure) (G.post self.now.structure) }
        ensures { Reads (boxed view_layout) (spec.star_layout (at_height n) tokens.old.rest.now)
            result tokens.new.rest.now }
    {
        let open = expect_punct(tokens, Punct::LBracket)?;
        let star = expect_punct(tokens, Punct::Star)?;
        let close = expect_punct(tokens, Punct::RBracket)?;
        Ok(boxed(self.alloc, Layout::Star { open, star, close })?)
    }

    #[tactic(auto, unfolding(crate::specs::layer::Expression::block_layout))]
    fn block_layout(&self, tokens: &mut Tokens<'_>, n: u32) -> Result<Box<Layout>, Fail>
        requires within { n ≤ self.now.below }
        requires nests { Nests self.now.below (F.pre self.now.expr) (F.post self.now.expr)
            (G.pre self.now.structure) (G.post self.now.structure) }
        ensures { Reads (boxed view_layout) (spec.block_layout (at_height n) tokens.old.rest.now)
            result tokens.new.rest.now }
    {
        let size = self.dimension(tokens, n)?;
        Ok(boxed(self.alloc, block_layout(size))?)
    }

    #[tactic(auto, unfolding(crate::specs::layer::Expression::layout))]
    fn layout(&self, tokens: &mut Tokens<'_>, n: u32) -> Result<Box<Layout>, Fail>
        requires within { n ≤ self.now.below }
        requires nests { Nests self.now.below (F.pre self.now.expr) (F.post self.now.expr)
            (G.pre self.now.structure) (G.post self.now.structure) }
        ensures { Reads (boxed view_layout) (spec.layout (at_height n) tokens.old.rest.now) result tokens.new.rest.now }
    {
        if !starts(Sign::Punct(Punct::LBracket), tokens.rest) {
            return Ok(boxed(self.alloc, Layout::Absent)?);
        }
        if starts_two(
            Sign::Punct(Punct::LBracket),
            Sign::Punct(Punct::RBracket),
            tokens.rest,
        ) {
            return self.empty_layout(tokens, n);
        }
        if star_fills(tokens.rest) {
            return self.star_layout(tokens, n);
        }
        self.block_layout(tokens, n)
    }

    #[tactic(auto, unfolding(crate::specs::layer::Expression::qual_by))]
    fn qual_by(
        &self,
        tokens: &mut Tokens<'_>,
        n: u32,
        word: QualWord,
        span: Span,
    ) -> Result<Qual, Fail>
        requires within { n ≤ self.now.below }
        requires nests { Nests self.now.below (F.pre self.now.expr) (F.post self.now.expr)
            (G.pre self.now.structure) (G.post self.now.structure) }
        ensures { Reads view_qual (spec.qual_by (at_height n) word span tokens.old.rest.now) result
            tokens.new.rest.now }
    {
        match word {
            QualWord::Const => Ok(Qual::Const(span)),
            QualWord::Strict => Ok(Qual::Strict(span)),
            QualWord::Relaxed => Ok(Qual::Relaxed(span)),
            QualWord::Shared => {
                let layout = self.layout(tokens, n)?;
                Ok(Qual::Shared { word: span, layout })
            }
        }
    }

    #[tactic(auto, unfolding(crate::specs::layer::Expression::qual))]
    fn qual(&self, tokens: &mut Tokens<'_>, n: u32) -> Result<Qual, Fail>
        requires within { n ≤ self.now.below }
        requires nests { Nests self.now.below (F.pre self.now.expr) (F.post self.now.expr)
            (G.pre self.now.structure) (G.post self.now.structure) }
        ensures { Reads view_qual (spec.qual (at_height n) tokens.old.rest.now) result tokens.new.rest.now }
    {
        match tokens.rest {
            [] => Err(Fail::Fault(Fault::NoTree)),
            [first, rest @ ..] => match qual_start(&first.kind) {
                None => Err(Fail::Fault(Fault::NoTree)),
                Some(word) => {
                    tokens.rest = rest;
                    self.qual_by(tokens, n, word, span_of(first))
                }
            },
        }
    }

    fn quals(&self, tokens: &mut Tokens<'_>, n: u32) -> Result<Vec<Qual>, Fail>
        requires within { n ≤ self.now.below }
        requires nests { Nests self.now.below (F.pre self.now.expr) (F.post self.now.expr)
            (G.pre self.now.structure) (G.post self.now.structure) }
        ensures { Reads view_quals (spec.quals (at_height n) tokens.old.rest.now) result tokens.new.rest.now }
    {
        many(
            self.alloc,
            tokens,
            Ahead::One(Sign::Qual),
            |t| self.qual(t, n),
        )
    }

    #[tactic(auto, unfolding(crate::specs::layer::Expression::pointer))]
    fn pointer(&self, tokens: &mut Tokens<'_>, n: u32) -> Result<Pointer, Fail>
        requires within { n ≤ self.now.below }
        requires nests { Nests self.now.below (F.pre self.now.expr) (F.post self.now.expr)
            (G.pre self.now.structure) (G.post self.now.structure) }
        ensures { Reads view_pointer (spec.pointer (at_height n) tokens.old.rest.now) result tokens.new.rest.now }
    {
        let star = expect_punct(tokens, Punct::Star)?;
        let quals = self.quals(tokens, n)?;
        Ok(Pointer { star, quals })
    }

    /// Stars with their qualifiers.
    pub fn pointers(&self, tokens: &mut Tokens<'_>, n: u32) -> Result<Vec<Pointer>, Fail>
        requires within { n ≤ self.now.below }
        requires nests { Nests self.now.below (F.pre self.now.expr) (F.post self.now.expr)
            (G.pre self.now.structure) (G.post self.now.structure) }
        ensures { Reads view_pointers (spec.pointers (at_height n) tokens.old.rest.now) result tokens.new.rest.now }
    {
        many(
            self.alloc,
            tokens,
            Ahead::One(Sign::Punct(Punct::Star)),
            |t| self.pointer(t, n),
        )
    }

    #[tactic(auto, unfolding(crate::specs::layer::Expression::spec))]
    fn spec(&self, tokens: &mut Tokens<'_>, n: u32) -> Result<Spec, Fail>
        requires within { n ≤ self.now.below }
        requires nests { Nests self.now.below (F.pre self.now.expr) (F.post self.now.expr)
            (G.pre self.now.structure) (G.post self.now.structure) }
        ensures { Reads view_spec (spec.spec (at_height n) tokens.old.rest.now) result tokens.new.rest.now }
    {
        match tokens.rest {
            [] => Err(Fail::Fault(Fault::NoTree)),
            [first, rest @ ..] => match spec_start(&first.kind) {
                None => Err(Fail::Fault(Fault::NoTree)),
                Some(SpecStart::Type(word)) => {
                    tokens.rest = rest;
                    Ok(Spec::Word {
                        word,
                        span: span_of(first),
                    })
                }
                Some(SpecStart::Qual(word)) => {
                    tokens.rest = rest;
                    let qual = self.qual_by(tokens, n, word, span_of(first))?;
                    Ok(Spec::Qual(qual))
                }
                Some(SpecStart::Struct) => self.structure(tokens, n),
            },
        }
    }

    /// Specifiers and qualifiers, at least one; at block scope (true) without `static`.
    pub fn specs(&self, tokens: &mut Tokens<'_>, n: u32, local: bool) -> Result<Vec<Spec>, Fail>
        requires within { n ≤ self.now.below }
        requires nests { Nests self.now.below (F.pre self.now.expr) (F.post self.now.expr)
            (G.pre self.now.structure) (G.post self.now.structure) }
        ensures { Reads view_specs (spec.specs (at_height n) local tokens.old.rest.now) result tokens.new.rest.now }
    {
        if !starts(Sign::Spec(local), tokens.rest) {
            return Err(Fail::Fault(Fault::NoTree));
        }
        many(
            self.alloc,
            tokens,
            Ahead::One(Sign::Spec(local)),
            |t| self.spec(t, n),
        )
    }

    /// A type name without sizes.
    #[tactic(auto, unfolding(crate::specs::layer::Expression::plain_type))]
    pub fn plain_type(&self, tokens: &mut Tokens<'_>, n: u32) -> Result<Box<TypeName>, Fail>
        requires within { n ≤ self.now.below }
        requires nests { Nests self.now.below (F.pre self.now.expr) (F.post self.now.expr)
            (G.pre self.now.structure) (G.post self.now.structure) }
        ensures { Reads (boxed view_type) (spec.plain_type (at_height n) tokens.old.rest.now) result
            tokens.new.rest.now }
    {
        let specs = self.specs(tokens, n, false)?;
        let pointers = self.pointers(tokens, n)?;
        Ok(type_name(self.alloc, specs, pointers, Vec::new(self.alloc))?)
    }

    /// A type name.
    #[tactic(auto, unfolding(crate::specs::layer::Expression::type_name))]
    pub fn type_name(&self, tokens: &mut Tokens<'_>, n: u32) -> Result<Box<TypeName>, Fail>
        requires within { n ≤ self.now.below }
        requires nests { Nests self.now.below (F.pre self.now.expr) (F.post self.now.expr)
            (G.pre self.now.structure) (G.post self.now.structure) }
        ensures { Reads (boxed view_type) (spec.type_name (at_height n) tokens.old.rest.now) result
            tokens.new.rest.now }
    {
        let specs = self.specs(tokens, n, false)?;
        let pointers = self.pointers(tokens, n)?;
        let sizes = self.dimensions(tokens, n)?;
        Ok(type_name(self.alloc, specs, pointers, sizes)?)
    }
}
