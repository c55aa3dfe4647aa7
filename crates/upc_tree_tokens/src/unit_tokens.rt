//! The tokens of a tree.

ghost use Rattle.std.specs.Prelude.{◌≡◌, ◌∷◌, map, OnOk, IfOk};
ghost use Rattle.upc_lexer.specs.declared.token.Punct.TheVariants as puncts;
ghost use Rattle.upc_tree.specs.Marks.{barrier_word};
ghost use Rattle.upc_tree.specs.Tokens.{punct, word, spell_pragmas};
ghost use Rattle.upc_tree.specs.Statement as statements;
ghost use Rattle.upc_tree.specs.Declaration.{spell_initial, spell_declared, spell_next_declareds};
ghost use Rattle.upc_tree.specs.Declaration.{spell_declared_list, spell_declaration};
ghost use Rattle.upc_tree.specs.Statement.{spell_value, spell_test, spell_first, spell_affinity, spell_for};
ghost use Rattle.upc_tree.specs.Statement.{spell_forall, spell_statement, spell_compound, spell_block_items};
ghost use Rattle.upc_tree.specs.Statement.{spell_block_item, spell_switch_items, spell_switch_item, spell_else_ifs};
ghost use Rattle.upc_tree.specs.Statement.{spell_otherwise};
ghost use Rattle.upc_tree.specs.Unit.{spell_external, spell_externals, tokens_of};
ghost use Rattle.upc_tree.specs.layer.Lists.{next_declareds_of, block_items_of, switch_items_of, else_ifs_of};
ghost use Rattle.upc_tree.specs.layer.ViewStatement.{view_initial, view_declared};
ghost use Rattle.upc_tree.specs.layer.ViewStatement.{view_next_declared, view_declared_list};
ghost use Rattle.upc_tree.specs.layer.ViewStatement.{view_declaration, view_value};
ghost use Rattle.upc_tree.specs.layer.ViewStatement.{view_test, view_first, view_affinity};
ghost use Rattle.upc_tree.specs.layer.ViewStatement.{view_for, view_forall};
ghost use Rattle.upc_tree.specs.layer.ViewStatement.{view_statement, view_compound, view_block_item};
ghost use Rattle.upc_tree.specs.layer.ViewStatement.{view_switch_item, view_else_if, view_otherwise, view_function};
ghost use Rattle.upc_tree.specs.layer.ViewStatement.{view_external, view_unit};

use std::alloc::Global;
use upc_lexer::{Punct, Token, TokenKind, Word};
use upc_text::OutOfMemory;
use upc_tree::{
    Affinity, BarrierWord, BlockItem, Compound, Declaration, Declared, DeclaredList, ElseIf, Expr,
    External, First, ForHead, ForallHead, Function, Initial, NextDeclared, Otherwise, Pragma, Span,
    Statement, SwitchItem, Test, Unit,
};
use upc_tree_expressions::{
    Backwards, put_declarator, put_expr, put_next_exprs, put_parameters, put_pointers, put_specs,
};

fn barrier_word(word: BarrierWord) -> Word
    ensures { result ≡ barrier_word word }
{
    match word {
        BarrierWord::Notify => Word::UpcNotify,
        BarrierWord::Wait => Word::UpcWait,
        BarrierWord::Barrier => Word::UpcBarrier,
    }
}

fn put_initial(out: &mut Backwards, initial: &Initial) -> Result<(), OutOfMemory>
    ensures { OnOk result (out.new ≡ spell_initial (view_initial initial.now) out.old) }
{
    match initial {
        Initial::Absent => Ok(()),
        Initial::Value { equal, value } => {
            put_expr(out, value)?;
            out.put_punct(Punct::Equal, *equal)
        }
        Initial::List {
            equal,
            open,
            first,
            more,
            close,
        } => {
            out.put_punct(Punct::RBrace, *close)?;
            put_next_exprs(out, more.as_slice())?;
            put_expr(out, first)?;
            out.put_punct(Punct::LBrace, *open)?;
            out.put_punct(Punct::Equal, *equal)
        }
    }
}

fn put_declared(out: &mut Backwards, declared: &Declared) -> Result<(), OutOfMemory>
    ensures { OnOk result (out.new ≡ spell_declared (view_declared declared.now) out.old) }
{
    put_initial(out, &declared.initial)?;
    put_declarator(out, &declared.declarator)
}

fn put_next_declareds(out: &mut Backwards, more: &[NextDeclared]) -> Result<(), OutOfMemory>
    ensures { OnOk result (out.new ≡ spell_next_declareds
        (next_declareds_of (map view_next_declared more.now)) out.old) }
{
    for i in (0..more.len()).rev() {
        let part = &more[i];
        put_declared(out, &part.declared)?;
        out.put_punct(Punct::Comma, part.comma)?;
    }
    Ok(())
}

fn put_declared_list(
    out: &mut Backwards,
    list: &Option<Box<DeclaredList>>,
) -> Result<(), OutOfMemory>
    ensures { OnOk result (out.new ≡ spell_declared_list (view_declared_list list.now) out.old) }
{
    match list {
        None => Ok(()),
        Some(list) => {
            put_next_declareds(out, list.more.as_slice())?;
            put_declared(out, &list.first)
        }
    }
}

fn put_declaration(out: &mut Backwards, declaration: &Declaration) -> Result<(), OutOfMemory>
    ensures { OnOk result (out.new ≡ spell_declaration (view_declaration declaration.now) out.old) }
{
    out.put_punct(Punct::Semicolon, declaration.semicolon)?;
    put_declared_list(out, &declaration.declared)?;
    put_specs(out, declaration.specs.as_slice())
}

fn put_value(out: &mut Backwards, value: &Option<Box<Expr>>) -> Result<(), OutOfMemory>
    ensures { OnOk result (out.new ≡ spell_value (view_value value.now) out.old) }
{
    match value {
        None => Ok(()),
        Some(value) => put_expr(out, value),
    }
}

fn put_test(out: &mut Backwards, test: &Test) -> Result<(), OutOfMemory>
    ensures { OnOk result (out.new ≡ spell_test (view_test test.now) out.old) }
{
    out.put_punct(Punct::RParen, test.close)?;
    put_expr(out, &test.value)?;
    out.put_punct(Punct::LParen, test.open)
}

fn put_first(out: &mut Backwards, first: &First) -> Result<(), OutOfMemory>
    ensures { OnOk result (out.new ≡ spell_first (view_first first.now) out.old) }
{
    match first {
        First::Expression { value, semicolon } => put_ended(out, value, *semicolon),
        First::Declaration(declaration) => put_declaration(out, declaration),
    }
}

fn put_affinity(out: &mut Backwards, affinity: &Affinity) -> Result<(), OutOfMemory>
    ensures { OnOk result (out.new ≡ spell_affinity (view_affinity affinity.now) out.old) }
{
    match affinity {
        Affinity::Absent => Ok(()),
        Affinity::Continue(word) => out.put_word(Word::Continue, *word),
        Affinity::Value(value) => put_expr(out, value),
    }
}

fn put_for(out: &mut Backwards, head: &ForHead) -> Result<(), OutOfMemory>
    ensures { OnOk result (out.new ≡ spell_for (view_for head.now) out.old) }
{
    out.put_punct(Punct::RParen, head.close)?;
    put_value(out, &head.step)?;
    out.put_punct(Punct::Semicolon, head.test_end)?;
    put_value(out, &head.test)?;
    put_first(out, &head.first)?;
    out.put_punct(Punct::LParen, head.open)
}

fn put_forall(out: &mut Backwards, head: &ForallHead) -> Result<(), OutOfMemory>
    ensures { OnOk result (out.new ≡ spell_forall (view_forall head.now) out.old) }
{
    out.put_punct(Punct::RParen, head.close)?;
    put_affinity(out, &head.affinity)?;
    out.put_punct(Punct::Semicolon, head.step_end)?;
    put_value(out, &head.step)?;
    out.put_punct(Punct::Semicolon, head.test_end)?;
    put_value(out, &head.test)?;
    put_first(out, &head.first)?;
    out.put_punct(Punct::LParen, head.open)
}

fn put_pragmas(out: &mut Backwards, pragmas: &[Pragma]) -> Result<(), OutOfMemory>
    ensures { OnOk result (out.new ≡ spell_pragmas pragmas.now out.old) }
{
    for i in (0..pragmas.len()).rev() {
        let part = &pragmas[i];
        out.put(TokenKind::Pragma(part.strict), part.span)?;
    }
    Ok(())
}

// A value with its semicolon.
fn put_ended(
    out: &mut Backwards,
    value: &Option<Box<Expr>>,
    semicolon: Span,
) -> Result<(), OutOfMemory>
    ensures { OnOk result (out.new ≡ spell_value (view_value value.now) (punct puncts.Semicolon semicolon ∷ out.old)) }
{
    out.put_punct(Punct::Semicolon, semicolon)?;
    put_value(out, value)
}

// A word with its semicolon.
fn put_word(out: &mut Backwards, kind: Word, at: Span, semicolon: Span) -> Result<(), OutOfMemory>
    ensures { OnOk result (out.new ≡ word kind at ∷ punct puncts.Semicolon semicolon ∷ out.old) }
{
    out.put_punct(Punct::Semicolon, semicolon)?;
    out.put_word(kind, at)
}

// A value with a word before it and its semicolon.
fn put_value_behind(
    out: &mut Backwards,
    kind: Word,
    at: Span,
    value: &Option<Box<Expr>>,
    semicolon: Span,
) -> Result<(), OutOfMemory>
    ensures { OnOk result (out.new ≡ word kind at ∷ spell_value (view_value value.now)
        (punct puncts.Semicolon semicolon ∷ out.old)) }
{
    put_ended(out, value, semicolon)?;
    out.put_word(kind, at)
}

// A test with a word before it.
fn put_test_behind(
    out: &mut Backwards,
    kind: Word,
    at: Span,
    test: &Test,
) -> Result<(), OutOfMemory>
    ensures { OnOk result (out.new ≡ word kind at ∷ spell_test (view_test test.now) out.old) }
{
    put_test(out, test)?;
    out.put_word(kind, at)
}

#[cycle(put_statement)]
fn put_statement(out: &mut Backwards, statement: &Statement) -> Result<(), OutOfMemory>
    ensures { OnOk result (out.new ≡ spell_statement (view_statement statement.now) out.old) }
{
    match statement {
        Statement::Compound(compound) => put_compound(out, compound),
        Statement::Expression { value, semicolon } => put_ended(out, value, *semicolon),
        Statement::If {
            word,
            test,
            body,
            more,
            otherwise,
        } => {
            put_otherwise(out, otherwise)?;
            put_else_ifs(out, more.as_slice())?;
            put_governed(out, Word::If, *word, test, body)
        }
        Statement::Switch {
            word,
            test,
            open,
            body,
            close,
        } => put_switch(out, *word, test, *open, body.as_slice(), *close),
        Statement::While { word, test, body } => put_governed(out, Word::While, *word, test, body),
        Statement::DoWhile {
            word,
            body,
            until,
            test,
            semicolon,
        } => put_do_while(out, *word, body, *until, test, *semicolon),
        Statement::For { word, head, body } => put_for_statement(out, *word, head, body),
        Statement::Forall { word, head, body } => put_forall_statement(out, *word, head, body),
        Statement::Break { word, semicolon } => put_word(out, Word::Break, *word, *semicolon),
        Statement::Continue { word, semicolon } => put_word(out, Word::Continue, *word, *semicolon),
        Statement::Return {
            word,
            value,
            semicolon,
        } => put_value_behind(out, Word::Return, *word, value, *semicolon),
        Statement::Barrier {
            word,
            at,
            value,
            semicolon,
        } => put_value_behind(out, barrier_word(*word), *at, value, *semicolon),
        Statement::Fence { word, semicolon } => put_word(out, Word::UpcFence, *word, *semicolon),
    }
}

// A statement with a word and a test before it.
#[cycle(put_statement)]
fn put_governed(
    out: &mut Backwards,
    kind: Word,
    at: Span,
    test: &Test,
    body: &Statement,
) -> Result<(), OutOfMemory>
    ensures { OnOk result (out.new ≡ word kind at ∷ spell_test (view_test test.now)
        (spell_statement (view_statement body.now) out.old)) }
{
    put_statement(out, body)?;
    put_test_behind(out, kind, at, test)
}

// A `switch`.
#[cycle(put_statement)]
fn put_switch(
    out: &mut Backwards,
    at: Span,
    test: &Test,
    left: Span,
    body: &[SwitchItem],
    right: Span,
) -> Result<(), OutOfMemory>
    ensures { OnOk result (out.new ≡ spell_statement (statements.Switch at (view_test test.now) left
        (switch_items_of (map view_switch_item body.now)) right) out.old) }
{
    out.put_punct(Punct::RBrace, right)?;
    put_switch_items(out, body)?;
    out.put_punct(Punct::LBrace, left)?;
    put_test_behind(out, Word::Switch, at, test)
}

// A `do`.
#[cycle(put_statement)]
fn put_do_while(
    out: &mut Backwards,
    at: Span,
    body: &Statement,
    until: Span,
    test: &Test,
    semicolon: Span,
) -> Result<(), OutOfMemory>
    ensures { OnOk result (out.new ≡ spell_statement (statements.DoWhile at (view_statement body.now) until
        (view_test test.now) semicolon) out.old) }
{
    out.put_punct(Punct::Semicolon, semicolon)?;
    put_test_behind(out, Word::While, until, test)?;
    put_statement(out, body)?;
    out.put_word(Word::Do, at)
}

// A `for`.
#[cycle(put_statement)]
fn put_for_statement(
    out: &mut Backwards,
    at: Span,
    head: &ForHead,
    body: &Statement,
) -> Result<(), OutOfMemory>
    ensures { OnOk result (out.new ≡ spell_statement (statements.For at (view_for head.now) (view_statement body.now))
        out.old) }
{
    put_statement(out, body)?;
    put_for(out, head)?;
    out.put_word(Word::For, at)
}

// A `upc_forall`.
#[cycle(put_statement)]
fn put_forall_statement(
    out: &mut Backwards,
    at: Span,
    head: &ForallHead,
    body: &Statement,
) -> Result<(), OutOfMemory>
    ensures { OnOk result (out.new ≡ spell_statement (statements.Forall at (view_forall head.now)
        (view_statement body.now)) out.old) }
{
    put_statement(out, body)?;
    put_forall(out, head)?;
    out.put_word(Word::UpcForall, at)
}

#[cycle(put_statement)]
fn put_compound(out: &mut Backwards, compound: &Compound) -> Result<(), OutOfMemory>
    ensures { OnOk result (out.new ≡ spell_compound (view_compound compound.now) out.old) }
{
    out.put_punct(Punct::RBrace, compound.close)?;
    put_block_items(out, compound.items.as_slice())?;
    put_pragmas(out, compound.pragmas.as_slice())?;
    out.put_punct(Punct::LBrace, compound.open)
}

#[cycle(put_statement)]
fn put_block_items(out: &mut Backwards, items: &[BlockItem]) -> Result<(), OutOfMemory>
    ensures { OnOk result (out.new ≡ spell_block_items (block_items_of (map view_block_item items.now)) out.old) }
{
    for i in (0..items.len()).rev() {
        let part = &items[i];
        put_block_item(out, part)?;
    }
    Ok(())
}

#[cycle(put_statement)]
fn put_block_item(out: &mut Backwards, item: &BlockItem) -> Result<(), OutOfMemory>
    ensures { OnOk result (out.new ≡ spell_block_item (view_block_item item.now) out.old) }
{
    match item {
        BlockItem::Declaration(declaration) => put_declaration(out, declaration),
        BlockItem::Statement(statement) => put_statement(out, statement),
    }
}

#[cycle(put_statement)]
fn put_switch_items(out: &mut Backwards, items: &[SwitchItem]) -> Result<(), OutOfMemory>
    ensures { OnOk result (out.new ≡ spell_switch_items (switch_items_of (map view_switch_item items.now)) out.old) }
{
    for i in (0..items.len()).rev() {
        let part = &items[i];
        put_switch_item(out, part)?;
    }
    Ok(())
}

#[cycle(put_statement)]
fn put_switch_item(out: &mut Backwards, item: &SwitchItem) -> Result<(), OutOfMemory>
    ensures { OnOk result (out.new ≡ spell_switch_item (view_switch_item item.now) out.old) }
{
    match item {
        SwitchItem::Case { word, value, colon } => {
            out.put_punct(Punct::Colon, *colon)?;
            put_expr(out, value)?;
            out.put_word(Word::Case, *word)
        }
        SwitchItem::Default { word, colon } => {
            out.put_punct(Punct::Colon, *colon)?;
            out.put_word(Word::Default, *word)
        }
        SwitchItem::Statement(statement) => put_statement(out, statement),
    }
}

#[cycle(put_statement)]
fn put_else_ifs(out: &mut Backwards, more: &[ElseIf]) -> Result<(), OutOfMemory>
    ensures { OnOk result (out.new ≡ spell_else_ifs (else_ifs_of (map view_else_if more.now)) out.old) }
{
    for i in (0..more.len()).rev() {
        let part = &more[i];
        put_statement(out, &part.body)?;
        put_test(out, &part.test)?;
        out.put_word(Word::If, part.word)?;
        out.put_word(Word::Else, part.other)?;
    }
    Ok(())
}

#[cycle(put_statement)]
fn put_otherwise(out: &mut Backwards, otherwise: &Otherwise) -> Result<(), OutOfMemory>
    ensures { OnOk result (out.new ≡ spell_otherwise (view_otherwise otherwise.now) out.old) }
{
    match otherwise {
        Otherwise::Absent => Ok(()),
        Otherwise::Else { word, body } => {
            put_statement(out, body)?;
            out.put_word(Word::Else, *word)
        }
    }
}

fn put_function(out: &mut Backwards, function: &Function) -> Result<(), OutOfMemory>
    ensures { OnOk result (out.new ≡ spell_external (view_function function.now) out.old) }
{
    put_compound(out, &function.body)?;
    put_parameters(out, &function.parameters)?;
    out.put_name(function.name)?;
    put_pointers(out, function.pointers.as_slice())?;
    put_specs(out, function.specs.as_slice())
}

fn put_external(out: &mut Backwards, external: &External) -> Result<(), OutOfMemory>
    ensures { OnOk result (out.new ≡ spell_external (view_external external.now) out.old) }
{
    match external {
        External::Pragma(pragma) => out.put(TokenKind::Pragma(pragma.strict), pragma.span),
        External::Declaration(declaration) => put_declaration(out, declaration),
        External::Function(function) => put_function(out, function),
    }
}

fn put_externals(out: &mut Backwards, externals: &[External]) -> Result<(), OutOfMemory>
    ensures { OnOk result (out.new ≡ spell_externals (map view_external externals.now) out.old) }
{
    for i in (0..externals.len()).rev() {
        let part = &externals[i];
        put_external(out, part)?;
    }
    Ok(())
}

/// The tokens of a tree, in their order.
pub fn tokens_of(alloc: Global, unit: &Unit) -> Result<Vec<Token>, OutOfMemory>
    ensures { IfOk result (λ tokens. tokens.items ≡ tokens_of (view_unit unit.now)) }
{
    let mut out = Backwards::new(alloc);
    put_externals(&mut out, unit.externals.as_slice())?;
    Ok(out.into_tokens())
}
