//! From the bytes of a source to its program.

ghost use Rattle.std.specs.Prelude.{◌≡◌, ◌≤◌, ℕ, List, length, IfOk, IfErr};
ghost use Rattle.upc_lexer.specs.Numbers.{NumbersFit};
ghost use Rattle.upc_lexer.specs.declared.token.Token.{Token as Item};
ghost use Rattle.upc_tree.specs.Unit.{External, tokens_of};
ghost use Rattle.upc_tree.specs.layer.ViewStatement.{view_unit};
ghost use Rattle.upc_text.specs.declared.place.Refusal.{Refusal as Reason};
ghost use Rattle.typed_tree.specs.Programs.{Checked};
ghost use Rattle.typed_tree.specs.ViewProgram.{view_program};
ghost use Rattle.upc_top.specs.Sources.{IsExpanded, IsRead, IsAccepted, IsRefused};
ghost use Rattle.upc_top.specs.Sources.{Passes, StopsReading};

use std::alloc::Global;
use upc_checker::{Program, accepts, check};
use upc_lexer::{Names, lex};
use upc_macros::expand;
use upc_parser::parse;
use upc_text::Stop;
use upc_tree::Unit;

/// The tree of a source, and its names.
#[derive(Drop)]
struct Tree {
    names: Names,
    unit: Unit,
}

// The tree of a source of at most 1,048,576 bytes.
fn read_tree(alloc: Global, source: &[u8]) -> Result<Tree, Stop>
    requires short { length source.now ≤ 1048576 }
    ensures read { IfOk result (λ tree. IsRead source.now tree.names (view_unit tree.unit)) }
    ensures numbers { IfOk result (λ tree. NumbersFit (tokens_of (view_unit tree.unit))) }
    ensures refused { (threads : ℕ) → IfErr result (StopsReading threads source.now) }
{
    let lexed = lex(alloc, source)?;
    let tokens = expand(alloc, source, &lexed)?;
    let unit = parse(alloc, tokens.as_slice())?;
    Ok(Tree {
        names: lexed.names,
        unit,
    })
}

/// The program that a source of at most 1,048,576 bytes is for so many threads.
pub fn read_source(alloc: Global, threads: u32, source: &[u8]) -> Result<Program, Stop>
    requires least { 1 ≤ threads }
    requires most { threads ≤ 32 }
    requires short { length source.now ≤ 1048576 }
    ensures accepted { IfOk result (λ p. IsAccepted threads source.now (view_program p)) }
    ensures refused { IfErr result (StopsReading threads source.now) }
{
    let tree = read_tree(alloc, source)?;
    let program = check(alloc, &tree.unit, &tree.names, threads)?;
    Ok(program)
}

/// Whether a source of at most 1,048,576 bytes is accepted for so many threads.
pub fn pass_source(alloc: Global, threads: u32, source: &[u8]) -> Result<(), Stop>
    requires least { 1 ≤ threads }
    requires short { length source.now ≤ 1048576 }
    ensures accepted { IfOk result (λ u. Passes threads source.now) }
    ensures refused { IfErr result (StopsReading threads source.now) }
{
    let tree = read_tree(alloc, source)?;
    accepts(alloc, &tree.unit, &tree.names, threads)?;
    Ok(())
}

/// A source has one expansion, one tree and one program, and none of them where it is refused.
pub fn one_reading()
    ensures expanded { (bytes : List ℕ) (m n : List (List ℕ)) (ts us : List Item)
        → IsExpanded bytes m ts → IsExpanded bytes n us → (m ≡ n) × (ts ≡ us) }
    ensures tree { (bytes : List ℕ) (m n : List (List ℕ)) (u v : List External) → IsRead bytes m u
        → IsRead bytes n v → (m ≡ n) × (u ≡ v) }
    ensures checked { (threads : ℕ) (bytes : List ℕ) (c d : Checked) → IsAccepted threads bytes c
        → IsAccepted threads bytes d → c ≡ d }
    ensures either { (threads : ℕ) (bytes : List ℕ) (c : Checked) (r : Reason)
        → IsAccepted threads bytes c → IsRefused threads bytes r → ⊥ }
{}
