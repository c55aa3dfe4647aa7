//! The rules of statements, over a function that parses their parts (C99 6.8, UPC 6.6).

ghost use Rattle.std.specs.Prelude.{◌≤◌};
ghost use Rattle.upc_tree.specs.layer.ViewStatement.{view_statement, view_compound, view_block_item, view_block_items};
ghost use Rattle.upc_tree.specs.layer.ViewStatement.{view_switch_item, view_switch_items, view_else_if, view_else_ifs};
ghost use Rattle.upc_tree.specs.layer.ViewStatement.{view_otherwise};
ghost use Rattle.upc_parser_ground.specs.layer.Outcome.{span_of};
ghost use Rattle.upc_parser_ground.specs.layer.Run.{Reads, boxed};
ghost use Rattle.upc_parser_statements.specs.layer.Parse as spec;
ghost use Rattle.upc_parser_statements.specs.layer.Parse.{statements_at};
ghost use Rattle.upc_parser_statements.specs.code.Run.{Nests};

use crate::start::{StatementStart, statement_start};
use std::alloc::Global;
use upc_lexer::{Punct, Token, Word};
use upc_parser_declarations::{
    barrier_statement, break_statement, case_item, continue_statement, declaration_item,
    default_item, fence_statement, for_head, forall_head, pragmas, return_statement, test,
    value_statement,
};
use upc_parser_ground::statements::{
    block, do_statement, for_statement, forall_statement, if_statement, switch, while_statement,
};
use upc_parser_ground::{
    Ahead, Fail, Fault, Sign, Tokens, boxed, expect_punct, expect_word, many, span_of, starts,
};
use upc_tree::{BlockItem, Compound, ElseIf, Otherwise, Span, Statement, SwitchItem};

/// The rules, as methods: statements one level down are parsed by the function, which calls back through it.
#[derive(Drop)]
pub struct Rules<H> {
    pub alloc: Global,
    /// How high a part may be.
    pub below: u32,
    pub statement: H,
}

impl<H: Fn(Global, &mut Tokens<'_>, u32) -> Result<Box<Statement>, Fail>> Rules<H> {
    /// A statement of at most height n.
    fn below(&self, tokens: &mut Tokens<'_>, n: u32) -> Result<Box<Statement>, Fail>
        requires within { n ≤ self.now.below }
        requires nests { Nests self.now.below (H.pre self.now.statement) (H.post self.now.statement) }
        ensures { Reads (boxed view_statement) ((statements_at n).statement tokens.old.rest.now)
            result tokens.new.rest.now }
    {
        (self.statement)(self.alloc, tokens, n)
    }

    #[tactic(auto, unfolding(crate::specs::layer::Parse::statement_item))]
    fn statement_item(&self, tokens: &mut Tokens<'_>, n: u32) -> Result<BlockItem, Fail>
        requires within { n ≤ self.now.below }
        requires nests { Nests self.now.below (H.pre self.now.statement) (H.post self.now.statement) }
        ensures { Reads view_block_item (spec.statement_item n (statements_at n)
            tokens.old.rest.now) result tokens.new.rest.now }
    {
        let statement = self.below(tokens, n)?;
        Ok(BlockItem::Statement(statement))
    }

    fn item(&self, tokens: &mut Tokens<'_>, n: u32) -> Result<BlockItem, Fail>
        requires within { n ≤ self.now.below }
        requires nests { Nests self.now.below (H.pre self.now.statement) (H.post self.now.statement) }
        ensures { Reads view_block_item (spec.item n (statements_at n) tokens.old.rest.now) result tokens.new.rest.now }
    {
        if starts(Sign::Spec(true), tokens.rest) {
            return declaration_item(self.alloc, tokens, n);
        }
        self.statement_item(tokens, n)
    }

    fn items(&self, tokens: &mut Tokens<'_>, n: u32) -> Result<Vec<BlockItem>, Fail>
        requires within { n ≤ self.now.below }
        requires nests { Nests self.now.below (H.pre self.now.statement) (H.post self.now.statement) }
        ensures { Reads view_block_items (spec.items n (statements_at n) tokens.old.rest.now) result
            tokens.new.rest.now }
    {
        many(
            self.alloc,
            tokens,
            Ahead::One(Sign::Unlike(Punct::RBrace)),
            |t| self.item(t, n),
        )
    }

    /// The items of a compound statement, a list of at most height n.
    fn items_below(&self, tokens: &mut Tokens<'_>, n: u32) -> Result<Vec<BlockItem>, Fail>
        requires within { n ≤ self.now.below }
        requires nests { Nests self.now.below (H.pre self.now.statement) (H.post self.now.statement) }
        ensures { Reads view_block_items ((statements_at n).items tokens.old.rest.now) result tokens.new.rest.now }
    {
        if n == 0 {
            return Err(Fail::Fault(Fault::TooHigh));
        }
        self.items(tokens, n - 1)
    }

    #[tactic(auto, unfolding(crate::specs::layer::Parse::switch_statement))]
    fn switch_statement(&self, tokens: &mut Tokens<'_>, n: u32) -> Result<SwitchItem, Fail>
        requires within { n ≤ self.now.below }
        requires nests { Nests self.now.below (H.pre self.now.statement) (H.post self.now.statement) }
        ensures { Reads view_switch_item (spec.switch_statement n (statements_at n)
            tokens.old.rest.now) result tokens.new.rest.now }
    {
        let statement = self.below(tokens, n)?;
        Ok(SwitchItem::Statement(statement))
    }

    fn switch_item(&self, tokens: &mut Tokens<'_>, n: u32) -> Result<SwitchItem, Fail>
        requires within { n ≤ self.now.below }
        requires nests { Nests self.now.below (H.pre self.now.statement) (H.post self.now.statement) }
        ensures { Reads view_switch_item (spec.switch_item n (statements_at n) tokens.old.rest.now)
            result tokens.new.rest.now }
    {
        if starts(Sign::Word(Word::Case), tokens.rest) {
            return case_item(self.alloc, tokens, n);
        }
        if starts(Sign::Word(Word::Default), tokens.rest) {
            return default_item(tokens);
        }
        self.switch_statement(tokens, n)
    }

    fn switch_items(&self, tokens: &mut Tokens<'_>, n: u32) -> Result<Vec<SwitchItem>, Fail>
        requires within { n ≤ self.now.below }
        requires nests { Nests self.now.below (H.pre self.now.statement) (H.post self.now.statement) }
        ensures { Reads view_switch_items (spec.switch_items n (statements_at n)
            tokens.old.rest.now) result tokens.new.rest.now }
    {
        many(
            self.alloc,
            tokens,
            Ahead::One(Sign::Unlike(Punct::RBrace)),
            |t| self.switch_item(t, n),
        )
    }

    /// The body of a `switch`, a list of at most height n.
    fn switch_items_below(&self, tokens: &mut Tokens<'_>, n: u32) -> Result<Vec<SwitchItem>, Fail>
        requires within { n ≤ self.now.below }
        requires nests { Nests self.now.below (H.pre self.now.statement) (H.post self.now.statement) }
        ensures { Reads view_switch_items ((statements_at n).switch_items tokens.old.rest.now)
            result tokens.new.rest.now }
    {
        if n == 0 {
            return Err(Fail::Fault(Fault::TooHigh));
        }
        self.switch_items(tokens, n - 1)
    }

    #[tactic(auto, unfolding(crate::specs::layer::Parse::compound))]
    pub fn compound(&self, tokens: &mut Tokens<'_>, n: u32) -> Result<Box<Compound>, Fail>
        requires within { n ≤ self.now.below }
        requires nests { Nests self.now.below (H.pre self.now.statement) (H.post self.now.statement) }
        ensures { Reads (boxed view_compound) (spec.compound n (statements_at n)
            tokens.old.rest.now) result tokens.new.rest.now }
    {
        let open = expect_punct(tokens, Punct::LBrace)?;
        let pragmas = pragmas(self.alloc, tokens)?;
        let items = self.items_below(tokens, n)?;
        let close = expect_punct(tokens, Punct::RBrace)?;
        Ok(boxed(
            self.alloc,
            Compound {
                open,
                pragmas,
                items,
                close,
            },
        )?)
    }

    #[tactic(auto, unfolding(crate::specs::layer::Parse::else_if))]
    fn else_if(&self, tokens: &mut Tokens<'_>, n: u32) -> Result<ElseIf, Fail>
        requires within { n ≤ self.now.below }
        requires nests { Nests self.now.below (H.pre self.now.statement) (H.post self.now.statement) }
        ensures { Reads view_else_if (spec.else_if n (statements_at n) tokens.old.rest.now) result tokens.new.rest.now }
    {
        let other = expect_word(tokens, Word::Else)?;
        let word = expect_word(tokens, Word::If)?;
        let test = test(self.alloc, tokens, n)?;
        let body = self.below(tokens, n)?;
        Ok(ElseIf {
            other,
            word,
            test,
            body,
        })
    }

    fn else_ifs(&self, tokens: &mut Tokens<'_>, n: u32) -> Result<Vec<ElseIf>, Fail>
        requires within { n ≤ self.now.below }
        requires nests { Nests self.now.below (H.pre self.now.statement) (H.post self.now.statement) }
        ensures { Reads view_else_ifs (spec.else_ifs n (statements_at n) tokens.old.rest.now) result
            tokens.new.rest.now }
    {
        many(
            self.alloc,
            tokens,
            Ahead::Two(Sign::Word(Word::Else), Sign::Word(Word::If)),
            |t| self.else_if(t, n),
        )
    }

    #[tactic(auto, unfolding(crate::specs::layer::Parse::else_part))]
    fn else_part(&self, tokens: &mut Tokens<'_>, n: u32) -> Result<Otherwise, Fail>
        requires within { n ≤ self.now.below }
        requires nests { Nests self.now.below (H.pre self.now.statement) (H.post self.now.statement) }
        ensures { Reads view_otherwise (spec.else_part n (statements_at n) tokens.old.rest.now)
            result tokens.new.rest.now }
    {
        let word = expect_word(tokens, Word::Else)?;
        let body = self.below(tokens, n)?;
        Ok(Otherwise::Else { word, body })
    }

    fn otherwise(&self, tokens: &mut Tokens<'_>, n: u32) -> Result<Otherwise, Fail>
        requires within { n ≤ self.now.below }
        requires nests { Nests self.now.below (H.pre self.now.statement) (H.post self.now.statement) }
        ensures { Reads view_otherwise (spec.otherwise n (statements_at n) tokens.old.rest.now)
            result tokens.new.rest.now }
    {
        if starts(Sign::Word(Word::Else), tokens.rest) {
            return self.else_part(tokens, n);
        }
        Ok(Otherwise::Absent)
    }

    #[tactic(auto, unfolding(crate::specs::layer::Parse::if_statement))]
    fn if_statement(
        &self,
        tokens: &mut Tokens<'_>,
        n: u32,
        word: Span,
    ) -> Result<Box<Statement>, Fail>
        requires within { n ≤ self.now.below }
        requires nests { Nests self.now.below (H.pre self.now.statement) (H.post self.now.statement) }
        ensures { Reads (boxed view_statement) (spec.if_statement n (statements_at n) word
            tokens.old.rest.now) result tokens.new.rest.now }
    {
        let test = test(self.alloc, tokens, n)?;
        let body = self.below(tokens, n)?;
        let more = self.else_ifs(tokens, n)?;
        let otherwise = self.otherwise(tokens, n)?;
        Ok(if_statement(self.alloc, word, test, body, more, otherwise)?)
    }

    #[tactic(auto, unfolding(crate::specs::layer::Parse::switch))]
    fn switch(&self, tokens: &mut Tokens<'_>, n: u32, word: Span) -> Result<Box<Statement>, Fail>
        requires within { n ≤ self.now.below }
        requires nests { Nests self.now.below (H.pre self.now.statement) (H.post self.now.statement) }
        ensures { Reads (boxed view_statement) (spec.switch n (statements_at n) word
            tokens.old.rest.now) result tokens.new.rest.now }
    {
        let test = test(self.alloc, tokens, n)?;
        let left = expect_punct(tokens, Punct::LBrace)?;
        let body = self.switch_items_below(tokens, n)?;
        let right = expect_punct(tokens, Punct::RBrace)?;
        Ok(switch(self.alloc, word, test, left, body, right)?)
    }

    #[tactic(auto, unfolding(crate::specs::layer::Parse::while_statement))]
    fn while_statement(
        &self,
        tokens: &mut Tokens<'_>,
        n: u32,
        word: Span,
    ) -> Result<Box<Statement>, Fail>
        requires within { n ≤ self.now.below }
        requires nests { Nests self.now.below (H.pre self.now.statement) (H.post self.now.statement) }
        ensures { Reads (boxed view_statement) (spec.while_statement n (statements_at n) word
            tokens.old.rest.now) result tokens.new.rest.now }
    {
        let test = test(self.alloc, tokens, n)?;
        let body = self.below(tokens, n)?;
        Ok(while_statement(self.alloc, word, test, body)?)
    }

    #[tactic(auto, unfolding(crate::specs::layer::Parse::do_statement))]
    fn do_statement(
        &self,
        tokens: &mut Tokens<'_>,
        n: u32,
        word: Span,
    ) -> Result<Box<Statement>, Fail>
        requires within { n ≤ self.now.below }
        requires nests { Nests self.now.below (H.pre self.now.statement) (H.post self.now.statement) }
        ensures { Reads (boxed view_statement) (spec.do_statement n (statements_at n) word
            tokens.old.rest.now) result tokens.new.rest.now }
    {
        let body = self.below(tokens, n)?;
        let until = expect_word(tokens, Word::While)?;
        let test = test(self.alloc, tokens, n)?;
        let semicolon = expect_punct(tokens, Punct::Semicolon)?;
        Ok(do_statement(self.alloc, word, body, until, test, semicolon)?)
    }

    #[tactic(auto, unfolding(crate::specs::layer::Parse::for_statement))]
    fn for_statement(
        &self,
        tokens: &mut Tokens<'_>,
        n: u32,
        word: Span,
    ) -> Result<Box<Statement>, Fail>
        requires within { n ≤ self.now.below }
        requires nests { Nests self.now.below (H.pre self.now.statement) (H.post self.now.statement) }
        ensures { Reads (boxed view_statement) (spec.for_statement n (statements_at n) word
            tokens.old.rest.now) result tokens.new.rest.now }
    {
        let head = for_head(self.alloc, tokens, n)?;
        let body = self.below(tokens, n)?;
        Ok(for_statement(self.alloc, word, head, body)?)
    }

    #[tactic(auto, unfolding(crate::specs::layer::Parse::forall_statement))]
    fn forall_statement(
        &self,
        tokens: &mut Tokens<'_>,
        n: u32,
        word: Span,
    ) -> Result<Box<Statement>, Fail>
        requires within { n ≤ self.now.below }
        requires nests { Nests self.now.below (H.pre self.now.statement) (H.post self.now.statement) }
        ensures { Reads (boxed view_statement) (spec.forall_statement n (statements_at n) word
            tokens.old.rest.now) result tokens.new.rest.now }
    {
        let head = forall_head(self.alloc, tokens, n)?;
        let body = self.below(tokens, n)?;
        Ok(forall_statement(self.alloc, word, head, body)?)
    }

    #[tactic(auto, unfolding(crate::specs::layer::Parse::block))]
    fn block_statement(&self, tokens: &mut Tokens<'_>, n: u32) -> Result<Box<Statement>, Fail>
        requires within { n ≤ self.now.below }
        requires nests { Nests self.now.below (H.pre self.now.statement) (H.post self.now.statement) }
        ensures { Reads (boxed view_statement) (spec.block n (statements_at n) tokens.old.rest.now)
            result tokens.new.rest.now }
    {
        let compound = self.compound(tokens, n)?;
        Ok(block(self.alloc, compound)?)
    }

    /// What stands after the word that a statement begins with.
    fn statement_from(
        &self,
        tokens: &mut Tokens<'_>,
        n: u32,
        start: StatementStart,
        word: Span,
    ) -> Result<Box<Statement>, Fail>
        requires within { n ≤ self.now.below }
        requires nests { Nests self.now.below (H.pre self.now.statement) (H.post self.now.statement) }
        ensures { Reads (boxed view_statement) (spec.statement_from n (statements_at n) start word
            tokens.old.rest.now) result tokens.new.rest.now }
    {
        match start {
            StatementStart::If => self.if_statement(tokens, n, word),
            StatementStart::Switch => self.switch(tokens, n, word),
            StatementStart::While => self.while_statement(tokens, n, word),
            StatementStart::Do => self.do_statement(tokens, n, word),
            StatementStart::For => self.for_statement(tokens, n, word),
            StatementStart::Forall => self.forall_statement(tokens, n, word),
            StatementStart::Break => break_statement(self.alloc, tokens, word),
            StatementStart::Continue => continue_statement(self.alloc, tokens, word),
            StatementStart::Return => return_statement(self.alloc, tokens, n, word),
            StatementStart::Barrier(kind) => barrier_statement(self.alloc, tokens, n, kind, word),
            StatementStart::Fence => fence_statement(self.alloc, tokens, word),
            StatementStart::Block | StatementStart::Value => Err(Fail::Fault(Fault::NoTree)),
        }
    }

    /// A statement of height n + 1 at most.
    #[tactic(auto, unfolding(crate::specs::layer::Parse::statement))]
    pub fn whole(&self, tokens: &mut Tokens<'_>, n: u32) -> Result<Box<Statement>, Fail>
        requires within { n ≤ self.now.below }
        requires nests { Nests self.now.below (H.pre self.now.statement) (H.post self.now.statement) }
        ensures { Reads (boxed view_statement) (spec.statement n (statements_at n)
            tokens.old.rest.now) result tokens.new.rest.now }
    {
        match tokens.rest {
            [] => Err(Fail::Fault(Fault::NoTree)),
            [first, rest @ ..] => match statement_start(&first.kind) {
                StatementStart::Block => self.block_statement(tokens, n),
                StatementStart::Value => value_statement(self.alloc, tokens, n),
                start => {
                    tokens.rest = rest;
                    self.statement_from(tokens, n, start, span_of(first))
                }
            },
        }
    }
}
