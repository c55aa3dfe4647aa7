//! Scopes inside one another, and what names stand for in them (C99 6.2.1).

ghost use Rattle.std.specs.Prelude.{◌≡◌, IfOk, OnOk, OnErr};
ghost use Rattle.upc_types.specs.View.{view};
ghost use Rattle.typed_tree.specs.Scopes as pure;
ghost use Rattle.typing_rules.specs.layer.Views.{view_meaning, view_signature};
ghost use Rattle.typing_rules.specs.Meanings as meanings;
ghost use Rattle.typed_tree.specs.layer.ViewEnv.{view_env, view_counts, view_detached, with_outer};

use crate::scope::{Declared, Scope};
use std::alloc::Global;
use typing_rules::types::is_shared;
use typing_rules::{Home, Meaning, Signature};
use upc_text::OutOfMemory;
use upc_types::CType;

/// How many objects have a number: private objects of the file, shared ones, and those of the function that are in
/// scope.
#[derive(Clone, Copy)]
pub struct Counts {
    pub privates: u32,
    pub shareds: u32,
    pub locals: u32,
}

/// The names of a scope, and the scopes around it. The file has level 0.
#[cycle(env)]
#[derive(Drop)]
pub struct Env<'o> {
    level: u32,
    names: Scope,
    counts: Counts,
    outer: Outer<'o>,
}

/// What is around a scope.
#[cycle(env)]
#[derive(Drop)]
pub enum Outer<'o> {
    NoScope,
    Within(&'o Env<'o>),
}

/// The names and the counts of a scope, without what is around it.
#[derive(Drop)]
pub struct Detached {
    level: u32,
    names: Scope,
    counts: Counts,
}

/// The scope of the file, without names.
pub fn file(alloc: Global) -> Env<'static>
    ensures { view_env result ≡ pure.file }
{
    Env {
        level: 0,
        names: Scope::new(alloc),
        counts: Counts {
            privates: 0,
            shareds: 0,
            locals: 0,
        },
        outer: Outer::NoScope,
    }
}

/// A scope inside, without names.
pub fn inside<'o>(alloc: Global, env: &'o Env<'o>) -> Result<Env<'o>, OutOfMemory>
    ensures { IfOk result (λ e. view_env e ≡ pure.inside (view_env env.now)) }
{
    let level = env.level.checked_add(1).ok_or(OutOfMemory)?;
    Ok(Env {
        level,
        names: Scope::new(alloc),
        counts: env.counts,
        outer: Outer::Within(env),
    })
}

/// A scope without what is around it.
pub fn alone(env: Env<'_>) -> Detached
    ensures { (outer : pure.Outer) → view_detached result outer ≡ with_outer outer (view_env env.entry) }
{
    Detached {
        level: env.level,
        names: env.names,
        counts: env.counts,
    }
}

/// A scope that was alone, inside another one.
pub fn within<'o>(own: Detached, env: &'o Env<'o>) -> Env<'o>
    ensures { view_env result ≡ view_detached own (pure.Within (view_env env.now)) }
{
    Env {
        level: own.level,
        names: own.names,
        counts: own.counts,
        outer: Outer::Within(env),
    }
}

/// The innermost declaration of a name. Takes no memory.
pub fn find<'e>(name: u32, env: &'e Env<'_>) -> Meaning<'e>
    ensures { view_meaning result ≡ pure.find name (view_env env.now) }
{
    match env.names.get(name) {
        Some(declared) => declared.meaning(),
        None => match &env.outer {
            Outer::NoScope => Meaning::Unknown,
            Outer::Within(outer) => find(name, outer),
        },
    }
}

/// What the innermost scope itself says of a name. Takes no memory.
pub fn here<'e>(name: u32, env: &'e Env<'_>) -> Meaning<'e>
    ensures { view_meaning result ≡ pure.here name (view_env env.now) }
{
    env.names.here(name)
}

/// How many scopes are around it.
pub fn level(env: &Env<'_>) -> u32
    ensures { result ≡ pure.level_of (view_env env.now) }
{
    env.level
}

/// Whether it is the scope of the file.
pub fn is_file(env: &Env<'_>) -> bool
    ensures { result ≡ pure.is_file (view_env env.now) }
{
    env.level == 0
}

/// Where the next object of this type lies.
pub fn next_home(t: &CType, env: &Env<'_>) -> Result<Home, OutOfMemory>
    ensures { IfOk result (λ home. home ≡ pure.next_home (view t.now) (view_env env.now)) }
{
    if !is_file(env) {
        return Ok(Home::Local(env.counts.locals));
    }
    if is_shared(t) {
        let number = env.counts.shareds.checked_add(1).ok_or(OutOfMemory)?;
        return Ok(Home::Shared(number));
    }
    Ok(Home::Private(env.counts.privates))
}

fn counted(home: Home, counts: Counts) -> Result<Counts, OutOfMemory>
    ensures { IfOk result (λ c. view_counts c ≡ pure.counted home (view_counts counts)) }
{
    let mut counts = counts;
    match home {
        Home::Private(_) => {
            counts.privates = counts.privates.checked_add(1).ok_or(OutOfMemory)?;
        }
        Home::Shared(_) => {
            counts.shareds = counts.shareds.checked_add(1).ok_or(OutOfMemory)?;
        }
        Home::Local(_) => {
            counts.locals = counts.locals.checked_add(1).ok_or(OutOfMemory)?;
        }
    }
    Ok(counts)
}

/// Declares a function. After want of memory nothing is changed.
pub fn enter_function(env: &mut Env<'_>, name: u32, signature: Signature) -> Result<(), OutOfMemory>
    ensures ok { OnOk result (view_env env.new
        ≡ pure.with_entry name (meanings.Function (view_signature signature)) (view_env env.old)) }
    ensures err { OnErr result (view_env env.new ≡ view_env env.old) }
{
    env.names.enter(name, Declared::Function(signature))
}

/// Declares an object of this type, which lies in the next home. After want of memory nothing is changed.
pub fn declare(env: &mut Env<'_>, name: u32, t: CType) -> Result<(), OutOfMemory>
    ensures ok { OnOk result (view_env env.new ≡ pure.declare name (view t) (view_env env.old)) }
    ensures err { OnErr result (view_env env.new ≡ view_env env.old) }
{
    let home = next_home(&t, env)?;
    let counts = counted(home, env.counts)?;
    env.names.enter(name, Declared::Object(t, home))?;
    env.counts = counts;
    Ok(())
}

/// Counts an object without a name, as a parameter may be. After want of memory nothing is changed.
pub fn declare_unnamed(env: &mut Env<'_>, t: &CType) -> Result<(), OutOfMemory>
    ensures ok { OnOk result (view_env env.new ≡ pure.declare_unnamed (view t.now) (view_env env.old)) }
    ensures err { OnErr result (view_env env.new ≡ view_env env.old) }
{
    let home = next_home(t, env)?;
    env.counts = counted(home, env.counts)?;
    Ok(())
}
