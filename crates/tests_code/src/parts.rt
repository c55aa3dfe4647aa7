//! The code of the parts of a program, each made alone, and the code of the whole.

use crate::alone::code_alone;
use crate::front::program_of;
use crate::words::text_of;
use gen_stmt::compile;
use stack_code::Code;
use std::alloc::Global;
use std::test::Fail;
use typed_tree::{Expr, Item, Program, Statement, StatementKind};
use upc_text::OutOfMemory;

const SOURCE: &[u8] = b"#include <upc_relaxed.h>
#include <stdio.h>
#define N 400
shared int a[N];
shared int total;
int main(void) {
  int i;
  int part = 0;
  upc_lock_t *lk = upc_all_lock_alloc();
  upc_forall (i = 0; i < N; i++; &a[i])
    a[i] = i;
  upc_barrier;
  for (i = MYTHREAD; i < N; i += THREADS)
    part += a[i];
  upc_lock(lk);
  total += part;
  upc_unlock(lk);
  upc_barrier;
  if (MYTHREAD == 0)
    printf(\"%d\\n\", total);
  return 0;
}
";

// The code of each expression that a statement of main, or the body of one, does.
const PARTS: [&str; 6] = [
    "11:5 Push shared 1
11:7 Local 0
11:7 Load int relaxed
11:5 Advance 1 4 1
11:12 Local 0
11:12 Load int relaxed
11:12 Cast int
11:5 Save int relaxed
",
    "14:5 Local 1
14:13 Push shared 1
14:15 Local 0
14:15 Load int relaxed
14:13 Advance 1 4 1
14:13 Load int relaxed
14:5 Over
14:5 Load int relaxed
14:5 Swap
14:5 Operate + int int
14:5 Cast int
14:5 Save int relaxed
",
    "15:12 Local 2
15:12 Load pointer-to-lock relaxed
15:12 Cast pointer-to-lock
15:3 Library Lock 1
",
    "16:3 Push shared 2
16:12 Local 1
16:12 Load int relaxed
16:3 Over
16:3 Load int relaxed
16:3 Swap
16:3 Operate + int int
16:3 Cast int
16:3 Save int relaxed
",
    "17:14 Local 2
17:14 Load pointer-to-lock relaxed
17:14 Cast pointer-to-lock
17:3 Library Unlock 1
",
    "20:20 Push shared 2
20:20 Load int relaxed
20:20 Cast int
20:5 Print 1
",
];

fn value_of(statement: &Statement) -> Option<&Expr> {
    match &statement.kind {
        StatementKind::Value(Some(e)) => Some(e),
        _ => None,
    }
}

// What a statement, or the body of one, does.
fn part_of(statement: &Statement) -> Option<&Expr> {
    match &statement.kind {
        StatementKind::For(_, body) | StatementKind::Forall(_, _, body) => value_of(body),
        StatementKind::If(arms, _) => {
            let arm = arms.as_slice().first()?;
            value_of(&arm.body)
        }
        _ => value_of(statement),
    }
}

// The code of a part, as text.
fn text_alone(
    alloc: Global,
    whole: &Code,
    program: &Program,
    e: &Expr,
) -> Result<String, OutOfMemory> {
    let code = code_alone(alloc, whole, program, e)?;
    Ok(text_of(alloc, &code, 0)?)
}

// Whether a part has this code, which gives its value back and stands as it is in the code of the whole.
fn is_part(part: &str, wanted: &str, text: &str) -> bool {
    match part.strip_prefix(wanted) {
        Some(rest) => rest.ends_with(" GiveBack 0\n") && text.contains(wanted),
        None => false,
    }
}

// How many of the parts of a statement list are the wanted ones in turn, up to the first that is not.
fn parts_in(
    alloc: Global,
    whole: &Code,
    program: &Program,
    items: &[Item],
) -> Result<usize, OutOfMemory> {
    let text = text_of(alloc, whole, 1)?;
    let mut found = 0usize;
    for item in items {
        let Item::Do(statement) = item else {
            continue;
        };
        let Some(e) = part_of(statement) else {
            continue;
        };
        let part = text_alone(alloc, whole, program, e)?;
        let wanted = PARTS.get(found).copied().unwrap_or("none");
        if !is_part(part.as_str(), wanted, text.as_str()) {
            return Ok(0);
        }
        found = found.saturating_add(1);
    }
    Ok(found)
}

// What the body of main holds.
fn items_of(program: &Program) -> Option<&[Item]> {
    let main = program.functions().first()?;
    match &main.body.kind {
        StatementKind::Block(_, items) => Some(items.as_slice()),
        _ => None,
    }
}

#[test]
fn code_of_parts(rt: HostRuntime) -> Result<(), Fail> {
    let alloc = rt.alloc();
    let program = program_of(alloc, 4, SOURCE)?;
    let whole = compile(alloc, &program)?;
    assert_eq!(rt; whole.functions(), 2);
    assert_eq!(rt; whole.size(0), 6);
    let items = items_of(&program).unwrap_or(&[]);
    assert_eq!(rt; parts_in(alloc, &whole, &program, items)?, PARTS.len());
    Ok(())
}
