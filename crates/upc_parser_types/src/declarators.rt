//! Declarators, parameters and structs (C99 6.7.2.1, 6.7.5).

ghost use Rattle.std.specs.Prelude.{◌≤◌};
ghost use Rattle.upc_tree.specs.layer.View.{view_spec, view_member, view_members};
ghost use Rattle.upc_tree.specs.layer.View.{view_declarator, view_next_declarator};
ghost use Rattle.upc_tree.specs.layer.View.{view_next_declarators, view_parameters};
ghost use Rattle.upc_tree.specs.layer.View.{view_parameter, view_next_parameter};
ghost use Rattle.upc_tree.specs.layer.View.{view_next_parameters, view_array, view_pointers};
ghost use Rattle.upc_parser_types.specs.layer.Expression as spec;
ghost use Rattle.upc_parser_types.specs.layer.Expression.{at_height};
ghost use Rattle.upc_parser_ground.specs.layer.Run.{Reads, boxed, same};
ghost use Rattle.upc_parser_types.specs.layer.Run.{Nests};

use crate::grammar::Grammar;
use std::alloc::Global;
use upc_lexer::{Punct, TokenKind, Word};
use upc_parser_ground::expressions::{
    function, member, next_parameter, object, parameter, parameters, sized_array, struct_spec,
};
use upc_parser_ground::{
    Ahead, Fail, Fault, Sign, Tokens, boxed, expect_punct, expect_word, many, name, span_of,
    starts, starts_two,
};
use upc_tree::{
    Declarator, Expr, Member, Name, NextDeclarator, NextParameter, Parameter, ParameterArray,
    Parameters, Pointer, Span, Spec,
};

fn optional_name(tokens: &mut Tokens<'_>) -> Result<Option<Name>, Fail>
    ensures { Reads same (spec.optional_name tokens.old.rest.now) result tokens.new.rest.now }
{
    match tokens.rest {
        [] => Ok(None),
        [first, rest @ ..] => match first.kind {
            TokenKind::Name(number) => {
                tokens.rest = rest;
                Ok(Some(Name {
                    number,
                    span: span_of(first),
                }))
            }
            _ => Ok(None),
        },
    }
}

impl<
    F: Fn(Global, &mut Tokens<'_>, u32, u8) -> Result<Box<Expr>, Fail>,
    G: Fn(Global, &mut Tokens<'_>, u32) -> Result<Spec, Fail>,
> Grammar<F, G> {
    #[tactic(auto, unfolding(crate::specs::layer::Expression::unsized_array))]
    fn unsized_array(&self, tokens: &mut Tokens<'_>, n: u32) -> Result<ParameterArray, Fail>
        requires within { n ≤ self.now.below }
        requires nests { Nests self.now.below (F.pre self.now.expr) (F.post self.now.expr)
            (G.pre self.now.structure) (G.post self.now.structure) }
        ensures { Reads view_array (spec.unsized_array (at_height n) tokens.old.rest.now) result tokens.new.rest.now }
    {
        let open = expect_punct(tokens, Punct::LBracket)?;
        let close = expect_punct(tokens, Punct::RBracket)?;
        Ok(ParameterArray::Unsized { open, close })
    }

    #[tactic(auto, unfolding(crate::specs::layer::Expression::sized_array))]
    fn sized_array(&self, tokens: &mut Tokens<'_>, n: u32) -> Result<ParameterArray, Fail>
        requires within { n ≤ self.now.below }
        requires nests { Nests self.now.below (F.pre self.now.expr) (F.post self.now.expr)
            (G.pre self.now.structure) (G.post self.now.structure) }
        ensures { Reads view_array (spec.sized_array (at_height n) tokens.old.rest.now) result tokens.new.rest.now }
    {
        let size = self.dimension(tokens, n)?;
        Ok(sized_array(size))
    }

    #[tactic(auto, unfolding(crate::specs::layer::Expression::array))]
    fn array(&self, tokens: &mut Tokens<'_>, n: u32) -> Result<ParameterArray, Fail>
        requires within { n ≤ self.now.below }
        requires nests { Nests self.now.below (F.pre self.now.expr) (F.post self.now.expr)
            (G.pre self.now.structure) (G.post self.now.structure) }
        ensures { Reads view_array (spec.array (at_height n) tokens.old.rest.now) result tokens.new.rest.now }
    {
        if !starts(Sign::Punct(Punct::LBracket), tokens.rest) {
            return Ok(ParameterArray::Absent);
        }
        if starts_two(
            Sign::Punct(Punct::LBracket),
            Sign::Punct(Punct::RBracket),
            tokens.rest,
        ) {
            return self.unsized_array(tokens, n);
        }
        self.sized_array(tokens, n)
    }

    #[tactic(auto, unfolding(crate::specs::layer::Expression::parameter))]
    fn parameter(&self, tokens: &mut Tokens<'_>, n: u32) -> Result<Box<Parameter>, Fail>
        requires within { n ≤ self.now.below }
        requires nests { Nests self.now.below (F.pre self.now.expr) (F.post self.now.expr)
            (G.pre self.now.structure) (G.post self.now.structure) }
        ensures { Reads (boxed view_parameter) (spec.parameter (at_height n) tokens.old.rest.now)
            result tokens.new.rest.now }
    {
        let specs = self.specs(tokens, n, false)?;
        let pointers = self.pointers(tokens, n)?;
        let name = optional_name(tokens)?;
        let array = self.array(tokens, n)?;
        Ok(parameter(self.alloc, specs, pointers, name, array)?)
    }

    #[tactic(auto, unfolding(crate::specs::layer::Expression::next_parameter))]
    fn next_parameter(&self, tokens: &mut Tokens<'_>, n: u32) -> Result<NextParameter, Fail>
        requires within { n ≤ self.now.below }
        requires nests { Nests self.now.below (F.pre self.now.expr) (F.post self.now.expr)
            (G.pre self.now.structure) (G.post self.now.structure) }
        ensures { Reads view_next_parameter (spec.next_parameter (at_height n) tokens.old.rest.now)
            result tokens.new.rest.now }
    {
        let comma = expect_punct(tokens, Punct::Comma)?;
        let parameter = self.parameter(tokens, n)?;
        Ok(next_parameter(comma, parameter))
    }

    fn next_parameters(&self, tokens: &mut Tokens<'_>, n: u32) -> Result<Vec<NextParameter>, Fail>
        requires within { n ≤ self.now.below }
        requires nests { Nests self.now.below (F.pre self.now.expr) (F.post self.now.expr)
            (G.pre self.now.structure) (G.post self.now.structure) }
        ensures { Reads view_next_parameters (spec.next_parameters (at_height n)
            tokens.old.rest.now) result tokens.new.rest.now }
    {
        many(
            self.alloc,
            tokens,
            Ahead::One(Sign::Punct(Punct::Comma)),
            |t| self.next_parameter(t, n),
        )
    }

    #[tactic(auto, unfolding(crate::specs::layer::Expression::no_parameters))]
    fn no_parameters(
        &self,
        tokens: &mut Tokens<'_>,
        n: u32,
        left: Span,
    ) -> Result<Box<Parameters>, Fail>
        requires within { n ≤ self.now.below }
        requires nests { Nests self.now.below (F.pre self.now.expr) (F.post self.now.expr)
            (G.pre self.now.structure) (G.post self.now.structure) }
        ensures { Reads (boxed view_parameters) (spec.no_parameters (at_height n) left
            tokens.old.rest.now) result tokens.new.rest.now }
    {
        let close = expect_punct(tokens, Punct::RParen)?;
        Ok(boxed(self.alloc, Parameters::Empty { open: left, close })?)
    }

    #[tactic(auto, unfolding(crate::specs::layer::Expression::void_parameters))]
    fn void_parameters(
        &self,
        tokens: &mut Tokens<'_>,
        n: u32,
        left: Span,
    ) -> Result<Box<Parameters>, Fail>
        requires within { n ≤ self.now.below }
        requires nests { Nests self.now.below (F.pre self.now.expr) (F.post self.now.expr)
            (G.pre self.now.structure) (G.post self.now.structure) }
        ensures { Reads (boxed view_parameters) (spec.void_parameters (at_height n) left
            tokens.old.rest.now) result tokens.new.rest.now }
    {
        let word = expect_word(tokens, Word::Void)?;
        let close = expect_punct(tokens, Punct::RParen)?;
        Ok(boxed(
            self.alloc,
            Parameters::Void {
                open: left,
                word,
                close,
            },
        )?)
    }

    #[tactic(auto, unfolding(crate::specs::layer::Expression::some_parameters))]
    fn some_parameters(
        &self,
        tokens: &mut Tokens<'_>,
        n: u32,
        left: Span,
    ) -> Result<Box<Parameters>, Fail>
        requires within { n ≤ self.now.below }
        requires nests { Nests self.now.below (F.pre self.now.expr) (F.post self.now.expr)
            (G.pre self.now.structure) (G.post self.now.structure) }
        ensures { Reads (boxed view_parameters) (spec.some_parameters (at_height n) left
            tokens.old.rest.now) result tokens.new.rest.now }
    {
        let first = self.parameter(tokens, n)?;
        let more = self.next_parameters(tokens, n)?;
        let right = expect_punct(tokens, Punct::RParen)?;
        Ok(parameters(self.alloc, left, first, more, right)?)
    }

    #[tactic(auto, unfolding(crate::specs::layer::Expression::parameters_in))]
    fn parameters_in(
        &self,
        tokens: &mut Tokens<'_>,
        n: u32,
        left: Span,
    ) -> Result<Box<Parameters>, Fail>
        requires within { n ≤ self.now.below }
        requires nests { Nests self.now.below (F.pre self.now.expr) (F.post self.now.expr)
            (G.pre self.now.structure) (G.post self.now.structure) }
        ensures { Reads (boxed view_parameters) (spec.parameters_in (at_height n) left
            tokens.old.rest.now) result tokens.new.rest.now }
    {
        if starts(Sign::Punct(Punct::RParen), tokens.rest) {
            return self.no_parameters(tokens, n, left);
        }
        if starts_two(
            Sign::Word(Word::Void),
            Sign::Punct(Punct::RParen),
            tokens.rest,
        ) {
            return self.void_parameters(tokens, n, left);
        }
        self.some_parameters(tokens, n, left)
    }

    /// The parameters of a function, in their parentheses.
    #[tactic(auto, unfolding(crate::specs::layer::Expression::parameters))]
    pub fn parameters(&self, tokens: &mut Tokens<'_>, n: u32) -> Result<Box<Parameters>, Fail>
        requires within { n ≤ self.now.below }
        requires nests { Nests self.now.below (F.pre self.now.expr) (F.post self.now.expr)
            (G.pre self.now.structure) (G.post self.now.structure) }
        ensures { Reads (boxed view_parameters) (spec.parameters (at_height n) tokens.old.rest.now)
            result tokens.new.rest.now }
    {
        let left = expect_punct(tokens, Punct::LParen)?;
        self.parameters_in(tokens, n, left)
    }

    #[tactic(auto, unfolding(crate::specs::layer::Expression::declarator_by))]
    fn declarator_by(
        &self,
        tokens: &mut Tokens<'_>,
        n: u32,
        stars: Vec<Pointer>,
        named: Name,
    ) -> Result<Box<Declarator>, Fail>
        requires within { n ≤ self.now.below }
        requires nests { Nests self.now.below (F.pre self.now.expr) (F.post self.now.expr)
            (G.pre self.now.structure) (G.post self.now.structure) }
        ensures { Reads (boxed view_declarator) (spec.declarator_by (at_height n)
            (view_pointers stars) named tokens.old.rest.now) result tokens.new.rest.now }
    {
        if starts(Sign::Punct(Punct::LParen), tokens.rest) {
            let parameters = self.parameters(tokens, n)?;
            return Ok(function(self.alloc, stars, named, parameters)?);
        }
        let sizes = self.dimensions(tokens, n)?;
        Ok(object(self.alloc, stars, named, sizes)?)
    }

    /// A declarator.
    #[tactic(auto, unfolding(crate::specs::layer::Expression::declarator))]
    pub fn declarator(&self, tokens: &mut Tokens<'_>, n: u32) -> Result<Box<Declarator>, Fail>
        requires within { n ≤ self.now.below }
        requires nests { Nests self.now.below (F.pre self.now.expr) (F.post self.now.expr)
            (G.pre self.now.structure) (G.post self.now.structure) }
        ensures { Reads (boxed view_declarator) (spec.declarator (at_height n) tokens.old.rest.now)
            result tokens.new.rest.now }
    {
        let stars = self.pointers(tokens, n)?;
        let named = name(tokens)?;
        self.declarator_by(tokens, n, stars, named)
    }

    #[tactic(auto, unfolding(crate::specs::layer::Expression::next_declarator))]
    fn next_declarator(&self, tokens: &mut Tokens<'_>, n: u32) -> Result<NextDeclarator, Fail>
        requires within { n ≤ self.now.below }
        requires nests { Nests self.now.below (F.pre self.now.expr) (F.post self.now.expr)
            (G.pre self.now.structure) (G.post self.now.structure) }
        ensures { Reads view_next_declarator (spec.next_declarator (at_height n)
            tokens.old.rest.now) result tokens.new.rest.now }
    {
        let comma = expect_punct(tokens, Punct::Comma)?;
        let declarator = self.declarator(tokens, n)?;
        Ok(NextDeclarator { comma, declarator })
    }

    fn next_declarators(&self, tokens: &mut Tokens<'_>, n: u32) -> Result<Vec<NextDeclarator>, Fail>
        requires within { n ≤ self.now.below }
        requires nests { Nests self.now.below (F.pre self.now.expr) (F.post self.now.expr)
            (G.pre self.now.structure) (G.post self.now.structure) }
        ensures { Reads view_next_declarators (spec.next_declarators (at_height n)
            tokens.old.rest.now) result tokens.new.rest.now }
    {
        many(
            self.alloc,
            tokens,
            Ahead::One(Sign::Punct(Punct::Comma)),
            |t| self.next_declarator(t, n),
        )
    }

    #[tactic(auto, unfolding(crate::specs::layer::Expression::member))]
    fn member(&self, tokens: &mut Tokens<'_>, n: u32) -> Result<Member, Fail>
        requires within { n ≤ self.now.below }
        requires nests { Nests self.now.below (F.pre self.now.expr) (F.post self.now.expr)
            (G.pre self.now.structure) (G.post self.now.structure) }
        ensures { Reads view_member (spec.member (at_height n) tokens.old.rest.now) result tokens.new.rest.now }
    {
        let specs = self.specs(tokens, n, false)?;
        let first = self.declarator(tokens, n)?;
        let more = self.next_declarators(tokens, n)?;
        let semicolon = expect_punct(tokens, Punct::Semicolon)?;
        Ok(member(specs, first, more, semicolon))
    }

    fn members(&self, tokens: &mut Tokens<'_>, n: u32) -> Result<Vec<Member>, Fail>
        requires within { n ≤ self.now.below }
        requires nests { Nests self.now.below (F.pre self.now.expr) (F.post self.now.expr)
            (G.pre self.now.structure) (G.post self.now.structure) }
        ensures { Reads view_members (spec.members (at_height n) tokens.old.rest.now) result tokens.new.rest.now }
    {
        many(
            self.alloc,
            tokens,
            Ahead::One(Sign::Spec(false)),
            |t| self.member(t, n),
        )
    }

    #[tactic(auto, unfolding(crate::specs::layer::Expression::struct_body))]
    fn struct_body(
        &self,
        tokens: &mut Tokens<'_>,
        n: u32,
        word: Span,
        tag: Name,
    ) -> Result<Spec, Fail>
        requires within { n ≤ self.now.below }
        requires nests { Nests self.now.below (F.pre self.now.expr) (F.post self.now.expr)
            (G.pre self.now.structure) (G.post self.now.structure) }
        ensures { Reads view_spec (spec.struct_body (at_height n) word tag tokens.old.rest.now)
            result tokens.new.rest.now }
    {
        let left = expect_punct(tokens, Punct::LBrace)?;
        let members = self.members(tokens, n)?;
        let right = expect_punct(tokens, Punct::RBrace)?;
        Ok(struct_spec(word, tag, left, members, right))
    }

    /// A struct, with its members or without them.
    #[tactic(auto, unfolding(crate::specs::layer::Expression::structure))]
    pub fn whole_structure(&self, tokens: &mut Tokens<'_>, n: u32) -> Result<Spec, Fail>
        requires within { n ≤ self.now.below }
        requires nests { Nests self.now.below (F.pre self.now.expr) (F.post self.now.expr)
            (G.pre self.now.structure) (G.post self.now.structure) }
        ensures { Reads view_spec (spec.structure (at_height n) tokens.old.rest.now) result tokens.new.rest.now }
    {
        let word = expect_word(tokens, Word::Struct)?;
        let tag = name(tokens)?;
        if starts(Sign::Punct(Punct::LBrace), tokens.rest) {
            return self.struct_body(tokens, n, word, tag);
        }
        Ok(Spec::Tag { word, tag })
    }
}
