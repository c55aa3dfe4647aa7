//! Sources for each line of the grammar, near misses, C99's ambiguous places, and the limit on the height of a tree.

use crate::macros::{expanded, joined, stopped};
use std::alloc::{AllocError as OutOfMemory, Global};
use std::test::Fail;
use upc_lexer::Token;
use upc_parser::parse;
use upc_text::Stop;
use upc_tree::{BinaryMark, BlockItem, Expr, External, Initial, Otherwise, Statement, Unit};
use upc_tree_tokens::{height, tokens_of};

fn tree(alloc: Global, source: &str) -> Result<Unit, Stop> {
    let tokens = expanded(alloc, source)?;
    parse(alloc, tokens.as_slice())
}

/// The height of the tree, or the refusal.
fn verdict(alloc: Global, source: &str) -> Result<String, Fail> {
    match tree(alloc, source) {
        Ok(unit) => {
            let height = height(&unit);
            Ok(format!(in alloc; "{height}")?)
        }
        Err(stop) => stopped(alloc, stop),
    }
}

/// Whether the verdict on a text between two others is this, with an ending after it.
fn is_judged(
    alloc: Global,
    (before, text, after): (&str, &str, &str),
    want: &str,
    ending: &str,
) -> Result<bool, Fail> {
    let source = joined(alloc, before, text, after)?;
    let got = verdict(alloc, source.as_str())?;
    Ok(got.as_str().strip_prefix(want) == Some(ending))
}

// Each source with the height of its tree.
const PARTS: [(&str, &str); 10] = [
    ("#pragma upc strict", "1"),
    ("#pragma upc relaxed\nint;\n#pragma upc strict\nint;", "2"),
    (
        "static const strict relaxed void char short int long signed unsigned size_t \
ptrdiff_t upc_lock_t upc_op_t upc_flag_t a;",
        "2",
    ),
    (
        "shared [] int a; shared [*] int b; shared [2 + 1] int c; shared int d;",
        "4",
    ),
    (
        "struct s; struct s x; struct s { } y; struct s { int a, *b[2]; struct t { char c; } d; int f(void); };",
        "4",
    ),
    ("int a, *b = 1, c[2] = {1, 2 + 3};", "4"),
    ("int a[1][2], *const *shared [3] *p, f(int);", "3"),
    (
        "void f(), g(void), h(int, int *a, int b[], int [3], shared [4] int *, void);",
        "3",
    ),
    ("int *f(int a) { }", "4"),
    ("struct s { int a; } f(void) { }", "4"),
];

// Each source that is none, with the place of its refusal.
const MISSED_PARTS: [(&str, &str); 39] = [
    ("", "1:1"),
    (";", "1:1"),
    ("}", "1:1"),
    ("int", "1:1"),
    ("x;", "1:1"),
    ("int a", "1:5"),
    ("int a b;", "1:7"),
    ("int 1;", "1:5"),
    ("int [2] x;", "1:5"),
    ("const [2] int x;", "1:7"),
    ("shared [2] [3] int a;", "1:12"),
    ("shared [1, 2] int a;", "1:10"),
    ("shared [* 2 int a;", "1:13"),
    ("struct { int a; } x;", "1:8"),
    ("struct s { int; };", "1:15"),
    ("struct s { int a };", "1:18"),
    ("struct s { int a = 1; };", "1:18"),
    ("struct s { int a;", "1:17"),
    ("int a = ;", "1:9"),
    ("int a = {};", "1:10"),
    ("int a = {1,};", "1:12"),
    ("int a = 1, 2;", "1:12"),
    ("int a = b, c + 1;", "1:14"),
    ("int a[];", "1:7"),
    ("int a[1, 2];", "1:8"),
    ("int (*f)(void);", "1:5"),
    ("int f(void)[2];", "1:12"),
    ("int *;", "1:6"),
    ("int * int a;", "1:7"),
    ("void f(int,);", "1:12"),
    ("void f(a);", "1:8"),
    ("void f(int a[1][2]);", "1:16"),
    ("void f(int 1);", "1:12"),
    ("int f(int a) int a; { }", "1:14"),
    ("int f(void) { } ;", "1:17"),
    ("int f(void) {", "1:13"),
    ("int a, f(void) { }", "1:16"),
    ("int f { }", "1:7"),
    ("int\n#pragma upc strict\nx;", "2:1"),
];

// What stands in the body of a function, with the height of the whole tree: that of an empty body is 4.
const STATEMENTS: [(&str, &str); 34] = [
    ("", "4"),
    ("\n#pragma upc strict\n#pragma upc relaxed\nint a;", "5"),
    ("{\n#pragma upc strict\n}", "6"),
    (";", "5"),
    ("int a; ; int b;", "5"),
    ("a;", "6"),
    ("if(a);", "6"),
    ("if(a);else;", "6"),
    ("if(a);else if(b);else if(c);else{}", "7"),
    ("switch(a){}", "6"),
    ("switch(a){case 1:;default:;case 2?3:4:;}", "8"),
    ("while(a)b;", "7"),
    ("do;while(a);", "6"),
    ("for(;;);", "6"),
    ("for(a;b;c,d);", "7"),
    ("for(int i=0,j;i;i++);", "7"),
    ("upc_forall(;;;);", "6"),
    ("upc_forall(int i=0;;;continue);", "7"),
    ("upc_forall(;;;a,b);", "7"),
    ("break;", "5"),
    ("continue;", "5"),
    ("return;", "5"),
    ("return a,b;", "7"),
    ("upc_notify;upc_wait 1;upc_barrier;", "6"),
    ("upc_fence;", "5"),
    ("a=b=c,d*=e/=f%=g+=h-=i<<=j>>=k&=l^=m|=n;", "17"),
    ("a?b,c:d?e:f;", "8"),
    ("a||b&&c|d^e&f==g!=h<i>j<=k>=l<<m>>n+o-p*q/r%s;", "18"),
    ("&*+-~!++--a;", "14"),
    ("-(int)+(char*)a;", "10"),
    (
        "sizeof a+upc_localsizeof(a)-upc_blocksizeof(int)*upc_elemsizeof(shared[]int*[2][3]);",
        "10",
    ),
    ("a[b,c](d,e).f->g++--;", "13"),
    ("f();", "7"),
    (
        "a,1,'b',\"c\" \"d\",MYTHREAD,THREADS,UPC_MAX_BLOCK_SIZE,(e,f);",
        "9",
    ),
];

// What may not stand in the body of a function; the body begins at 2:1, and the brace after it stands at 3:1.
const MISSED_STATEMENTS: [(&str, &str); 41] = [
    ("static int a;", "2:1"),
    ("int static a;", "2:5"),
    ("for(static int i;;);", "2:5"),
    (";\n#pragma upc strict", "3:1"),
    ("if(a)\n#pragma upc strict\n;", "3:1"),
    ("switch(a){\n#pragma upc strict\n}", "3:1"),
    ("int f(void){}", "2:12"),
    ("if a;", "2:4"),
    ("if();", "2:4"),
    ("if(a)", "3:1"),
    ("if(int a);", "2:4"),
    ("if(a)int b;", "2:6"),
    ("else;", "2:1"),
    ("if(a);else;else;", "2:12"),
    ("switch(a)case 1:;", "2:10"),
    ("switch(a){int b;}", "2:11"),
    ("switch(a){case 1;}", "2:17"),
    ("switch(a){case:;}", "2:15"),
    ("switch(a){case 1,2:;}", "2:17"),
    ("switch(a){case b=1:;}", "2:17"),
    ("switch(a){default 1:;}", "2:19"),
    ("case 1:;", "2:1"),
    ("default:;", "2:1"),
    ("while();", "2:7"),
    ("do;while(a)", "3:1"),
    ("do;", "3:1"),
    ("do;;while(a);", "2:4"),
    ("for(;);", "2:6"),
    ("for(;;;);", "2:7"),
    ("for(a,int b;;);", "2:7"),
    ("upc_forall(;;);", "2:14"),
    ("upc_forall(;;;break);", "2:15"),
    ("upc_forall(;;;continue,a);", "2:23"),
    ("break", "3:1"),
    ("continue a;", "2:10"),
    ("return int;", "2:8"),
    ("upc_notify upc_wait;", "2:12"),
    ("upc_fence a;", "2:11"),
    ("a;b", "3:1"),
    ("{", "3:1"),
    ("}", "3:1"),
];

// What is no statement by the rules of expressions.
const MISSED_EXPRESSIONS: [(&str, &str); 36] = [
    ("a b;", "2:3"),
    ("(a;", "2:3"),
    ("a);", "2:2"),
    (",a;", "2:1"),
    ("a=b,;", "2:5"),
    ("a+b=c;", "2:4"),
    ("(int)a=b;", "2:7"),
    ("a?b:c=d;", "2:6"),
    ("a=b?c:d=e;", "2:8"),
    ("a?b;", "2:4"),
    ("a?:b;", "2:3"),
    ("a?b:;", "2:5"),
    ("a*;", "2:3"),
    ("*;", "2:2"),
    ("&&a;", "2:1"),
    ("a++b;", "2:4"),
    ("++(int)a;", "2:4"),
    ("sizeof;", "2:7"),
    ("sizeof(int)a;", "2:12"),
    ("sizeof(int)++;", "2:12"),
    ("sizeof(int[]);", "2:12"),
    ("sizeof(int(*)(void));", "2:11"),
    ("(int[3])a;", "2:5"),
    ("(int);", "2:6"),
    ("(int a)b;", "2:6"),
    ("a[];", "2:3"),
    ("f(a,);", "2:5"),
    ("f(,a);", "2:3"),
    ("f(a b);", "2:5"),
    ("f(int);", "2:3"),
    ("a.(b);", "2:3"),
    ("a->2;", "2:4"),
    ("();", "2:2"),
    ("(a,);", "2:4"),
    ("1 2;", "2:3"),
    ("\"a\"b;", "2:4"),
];

// What stands before and after the texts of a table, the table, and what stands after each verdict.
type Group = (
    &'static str,
    &'static str,
    &'static [(&'static str, &'static str)],
    &'static str,
);

const GROUPS: [Group; 5] = [
    ("", "", &PARTS, ""),
    ("", "", &MISSED_PARTS, " Syntax"),
    ("void f(void){", "\n}", &STATEMENTS, ""),
    ("void f(void){\n", "\n}", &MISSED_STATEMENTS, " Syntax"),
    ("void f(void){\n", "\n}", &MISSED_EXPRESSIONS, " Syntax"),
];

#[test]
fn sources_and_near_misses(rt: HostRuntime) -> Result<(), Fail> {
    for (before, after, rows, ending) in &GROUPS {
        for (text, want) in rows.iter() {
            assert!(rt;
                is_judged(rt.alloc(), (*before, *text, *after), want, ending)?,
                "{text}"
            );
        }
    }
    Ok(())
}

/// The initial value of the first object of a source.
fn first_value(unit: &Unit) -> Option<&Expr> {
    match unit.externals.first()? {
        External::Declaration(declaration) => match &*declaration.declared.as_ref()?.first.initial {
            Initial::Value { value, .. } => Some(value),
            _ => None,
        },
        _ => None,
    }
}

/// The line of the grammar that an expression is an instance of.
fn line_of(e: &Expr) -> &'static str {
    match e {
        Expr::Name(_)
        | Expr::Number { .. }
        | Expr::Character { .. }
        | Expr::Strings { .. }
        | Expr::Constant { .. } => "primary",
        Expr::Paren { .. } => "parentheses",
        Expr::Subscript { .. } => "subscript",
        Expr::Call { .. } => "call",
        Expr::Member { .. } => "member",
        Expr::Postfix { .. } => "postfix",
        Expr::Unary { .. } => "unary",
        Expr::SizeOfExpr { .. } => "size of an expression",
        Expr::SizeOfType { .. } => "size of a type",
        Expr::Cast { .. } => "cast",
        Expr::Binary {
            mark: BinaryMark::Subtract,
            ..
        } => "difference",
        Expr::Binary { .. } => "binary",
        Expr::Assign { .. } => "assignment",
        Expr::Conditional { .. } => "conditional",
        Expr::Comma { .. } => "comma",
    }
}

/// The line of the grammar of the initial value of a source.
fn line_in(alloc: Global, text: &str) -> Result<&'static str, OutOfMemory> {
    let source = joined(alloc, "int x = ", text, ";")?;
    let Ok(unit) = tree(alloc, source.as_str()) else {
        return Ok("refused");
    };
    match first_value(&unit) {
        Some(e) => Ok(line_of(e)),
        None => Ok("no value"),
    }
}

// An initial value, and the line of the grammar that it is an instance of.
const VALUES: [(&str, &str); 34] = [
    ("sizeof (int) - 1", "difference"),
    ("sizeof (int) * b", "binary"),
    ("sizeof (a) - 1", "difference"),
    ("sizeof - 1", "size of an expression"),
    ("sizeof (a)(b)", "size of an expression"),
    ("sizeof a[1]", "size of an expression"),
    ("sizeof (int)", "size of a type"),
    ("(a)(b)", "call"),
    ("(a)-b", "difference"),
    ("(a)*b", "binary"),
    ("(a)&b", "binary"),
    ("(int)(b)", "cast"),
    ("(int)(b)(c)", "cast"),
    ("(int)-b", "cast"),
    ("(int)*b", "cast"),
    ("(int)a.b", "cast"),
    ("(int)a-b", "difference"),
    ("-a.b", "unary"),
    ("*a++", "unary"),
    ("++a++", "unary"),
    ("&a[1]", "unary"),
    ("!a==b", "binary"),
    ("a+++b", "binary"),
    ("-a=b", "assignment"),
    ("a=b=c", "assignment"),
    ("a=b?c:d", "assignment"),
    ("a?b=c:d", "conditional"),
    ("a?b:c?d:e", "conditional"),
    ("a?b,c:d", "conditional"),
    ("(a,b)", "parentheses"),
    ("a(b)[c].d", "member"),
    ("a(b)[c]", "subscript"),
    ("a.b--", "postfix"),
    ("0", "primary"),
];

#[test]
fn ambiguous_places(rt: HostRuntime) -> Result<(), Fail> {
    for (text, want) in &VALUES {
        assert!(rt; line_in(rt.alloc(), text)? == *want, "{text}");
    }
    Ok(())
}

/// Whether the left operand is the one that has an operator of its own.
fn joins_left(e: &Expr) -> bool {
    match e {
        Expr::Binary { left, .. } => matches!(**left, Expr::Binary { .. }),
        _ => false,
    }
}

/// Whether two operators join so, the first before the second.
fn first_joins(alloc: Global, first: &str, second: &str) -> Result<Option<bool>, OutOfMemory> {
    let begun = joined(alloc, "int x = a ", first, " b ")?;
    let source = joined(alloc, begun.as_str(), second, " c;")?;
    let Ok(unit) = tree(alloc, source.as_str()) else {
        return Ok(None);
    };
    match first_value(&unit) {
        Some(e) => Ok(Some(joins_left(e))),
        None => Ok(None),
    }
}

// An operator and its level.
const OPERATORS: [(&str, u32); 18] = [
    ("||", 1),
    ("&&", 2),
    ("|", 3),
    ("^", 4),
    ("&", 5),
    ("==", 6),
    ("!=", 6),
    ("<", 7),
    (">", 7),
    ("<=", 7),
    (">=", 7),
    ("<<", 8),
    (">>", 8),
    ("+", 9),
    ("-", 9),
    ("*", 10),
    ("/", 10),
    ("%", 10),
];

// Of two operators the one of the higher level joins first, and of two of one level the left one (C99 6.5.5 to 6.5.14).
#[test]
fn levels(rt: HostRuntime) -> Result<(), Fail> {
    for (first, low) in &OPERATORS {
        for (second, high) in &OPERATORS {
            let got = first_joins(rt.alloc(), first, second)?;
            assert!(rt; got == Some(*low >= *high), "{first} {second}");
        }
    }
    Ok(())
}

// How many further arms an `if` has, and whether it has an `else`.
type Arms = (usize, bool);

/// The first statement of a function's body.
fn first_statement(unit: &Unit) -> Option<&Statement> {
    match unit.externals.first()? {
        External::Function(function) => match function.body.items.first()? {
            BlockItem::Statement(statement) => Some(statement),
            BlockItem::Declaration(_) => None,
        },
        _ => None,
    }
}

/// The number of the further arms of an `if`, and whether it has an `else`.
fn arms(statement: &Statement) -> Option<Arms> {
    match statement {
        Statement::If {
            more,
            otherwise,
            ..
        } => Some((more.len(), matches!(otherwise, Otherwise::Else { .. }))),
        _ => None,
    }
}

/// The statement that an `if` or a `while` governs.
fn body_of(statement: &Statement) -> Option<&Statement> {
    match statement {
        Statement::If { body, .. } | Statement::While { body, .. } => Some(body),
        _ => None,
    }
}

/// The arms of the first statement of a body, and of what it governs, where each is an `if`.
fn arms_in(alloc: Global, body: &str) -> Result<(Option<Arms>, Option<Arms>), OutOfMemory> {
    let source = joined(alloc, "void f(void){", body, "}")?;
    let Ok(unit) = tree(alloc, source.as_str()) else {
        return Ok((None, None));
    };
    let Some(outer) = first_statement(&unit) else {
        return Ok((None, None));
    };
    match body_of(outer) {
        Some(inner) => Ok((arms(outer), arms(inner))),
        None => Ok((arms(outer), None)),
    }
}

// The arms of the outer `if`, and of what it governs, where that is one.
const ARMS: [(&str, Option<Arms>, Option<Arms>); 10] = [
    ("if(a)if(b);else;", Some((0, false)), Some((0, true))),
    ("if(a)if(b);else;else;", Some((0, true)), Some((0, true))),
    ("if(a){if(b);}else;", Some((0, true)), None),
    ("if(a)while(b)if(c);else;", Some((0, false)), None),
    ("if(a);else if(b);else if(c);else;", Some((2, true)), None),
    ("if(a);else if(b);", Some((1, false)), None),
    ("if(a);else{if(b);}", Some((0, true)), None),
    ("if(a);else while(b)if(c);else;", Some((0, true)), None),
    (
        "if(a)if(b);else if(c);else;",
        Some((0, false)),
        Some((1, true)),
    ),
    ("while(a)if(b);else;", None, Some((0, true))),
];

#[test]
fn each_else_is_the_nearest_ones(rt: HostRuntime) -> Result<(), Fail> {
    for (body, outer, inner) in &ARMS {
        assert!(rt; arms_in(rt.alloc(), body)? == (*outer, *inner), "{body}");
    }
    Ok(())
}

/// A text, and so many copies of another after it.
fn repeated(alloc: Global, before: &str, text: &str, count: u32) -> Result<String, OutOfMemory> {
    let mut source = String::from_str(alloc, before)?;
    for _ in 0..count {
        source.push_str(text)?;
    }
    Ok(source)
}

// A text, another so many times, a third, a fourth so many times, what stands after them, and the verdict: trees of
// 256 levels, and of one or two more. Then long lists, which are flat: they are parsed, walked and dropped without
// deep recursion.
type Long = (
    &'static str,
    &'static str,
    u32,
    &'static str,
    &'static str,
    u32,
    &'static str,
    &'static str,
);

const LONG: [Long; 23] = [
    ("int x=", "(", 253, "1", ")", 253, ";", "256"),
    ("int x=", "(", 254, "1", ")", 254, ";", "1:1 Limit(3)"),
    (
        "int f(void){return ",
        "(",
        300,
        "1+1",
        ")",
        300,
        ";}",
        "1:1 Limit(3)",
    ),
    ("int x=a", "-a", 253, "", "", 0, ";", "256"),
    ("int x=a", "-a", 254, "", "", 0, ";", "1:1 Limit(3)"),
    ("int x=", "a=", 253, "b", "", 0, ";", "256"),
    ("int x=", "a=", 254, "b", "", 0, ";", "1:1 Limit(3)"),
    ("void f(void){", "{", 126, "", "}", 126, "}", "256"),
    ("void f(void){", "{", 127, "", "}", 127, "}", "1:1 Limit(3)"),
    ("void f(void){", "while(a)", 251, ";", "", 0, "}", "256"),
    (
        "void f(void){",
        "while(a)",
        252,
        ";",
        "",
        0,
        "}",
        "1:1 Limit(3)",
    ),
    ("", "struct s{", 254, "", "}a;", 254, "", "256"),
    ("", "struct s{", 255, "", "}a;", 255, "", "1:1 Limit(3)"),
    ("int x=", "(", 249, "", "", 0, ";", "1:256 Syntax"),
    ("void f(void){", ";", 100_000, "", "", 0, "}", "5"),
    ("", "int;", 20_000, "", "", 0, "", "2"),
    ("int x", ",x", 20_000, "", "", 0, ";", "2"),
    ("void f(void){a", ",a", 20_000, "", "", 0, ";}", "7"),
    ("void f(void){f(a", ",a", 20_000, "", "", 0, ");}", "8"),
    (
        "void f(void){if(a);",
        "else if(a);",
        10_000,
        "",
        "",
        0,
        "}",
        "6",
    ),
    (
        "void f(void){switch(a){",
        "case 1:",
        10_000,
        "",
        "",
        0,
        "}}",
        "7",
    ),
    ("struct s{", "int a;", 10_000, "", "", 0, "};", "3"),
    ("void f(int", ",int", 10_000, "", "", 0, ");", "2"),
];

fn is_long(
    alloc: Global,
    (before, opening, deep, middle, closing, back, after, want): &Long,
) -> Result<bool, Fail> {
    let first = repeated(alloc, before, opening, *deep)?;
    let second = repeated(alloc, middle, closing, *back)?;
    is_judged(alloc, (first.as_str(), second.as_str(), *after), want, "")
}

#[test]
fn heights_and_long_lists(rt: HostRuntime) -> Result<(), Fail> {
    for (number, row) in LONG.iter().enumerate() {
        assert!(rt; is_long(rt.alloc(), row)?, "{number}");
    }
    Ok(())
}

const SOURCES: [&str; 4] = [
    "#pragma upc strict\nshared [2] int a[3] = {1, 'b'}, *p; struct s { char c, d[2]; };",
    "int f(struct s *x, int [4]) {\n#pragma upc relaxed\nint i; for (i = 0; i < 9; i++) if (i) a[i] += x->c; \
else if (p) f(x, 2); else break; }",
    "void g(void) { upc_forall (;;; continue) do { } while (0); \
switch (i) { case 1: default: return sizeof (int [2]); } }",
    "shared [*] struct s *shared [] *h() { upc_barrier (int) i ? \"a\" \"b\" : THREADS; \
while (!f()) continue; upc_fence; }",
];

// Whether two tokens are the same, at one place.
fn same_token(alloc: Global, new: &Token, old: &Token) -> Result<bool, Fail> {
    let kind = format!(in alloc; "{:?}", new.kind)?;
    let want = format!(in alloc; "{:?}", old.kind)?;
    Ok(
        new.start == old.start
            && new.end == old.end
            && new.place == old.place
            && kind.as_str() == want.as_str(),
    )
}

// The tokens of a source, and those of its tree.
fn both_tokens(alloc: Global, source: &str) -> Result<(Vec<Token>, Vec<Token>), Stop> {
    let before = expanded(alloc, source)?;
    let unit = parse(alloc, before.as_slice())?;
    let after = tokens_of(alloc, &unit)?;
    Ok((before, after))
}

// The tokens of a tree are those of its source, each at its place.
#[test]
fn tokens_come_back(rt: HostRuntime) -> Result<(), Fail> {
    for source in &SOURCES {
        let (before, after) = both_tokens(rt.alloc(), source)?;
        assert_eq!(rt; after.len(), before.len(), "{source}");
        for (new, old) in after.iter().zip(before.iter()) {
            assert!(rt; same_token(rt.alloc(), new, old)?, "{source}");
        }
    }
    Ok(())
}
