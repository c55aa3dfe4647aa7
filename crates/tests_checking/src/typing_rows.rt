//! For each typing rule a source that breaks it, with its place, and one beside it that breaks none: the programs that
//! docs/ERRORS.md shows. After them sources for each limit on declared objects.

use crate::sources::{accepted, program_of};
use std::alloc::Global;
use std::test::Fail;
use upc_text::{Code, Stop};

// The answer to a source on two threads.
enum Answer {
    WellTyped,
    Refused(Code, u32, u32),
}

use Answer::{Refused, WellTyped};

// A source and its answer.
type Row = (&'static [u8], Answer);

const ROWS: [Row; 68] = [
    // Rule 1.
    (
        b"int main(void){return x;}",
        Refused(Code::Typing(1), 1, 23),
    ),
    (b"int x; int main(void){return x;}", WellTyped),
    // Rule 2.
    (
        b"int a; int a; int main(void){return 0;}",
        Refused(Code::Typing(2), 1, 12),
    ),
    (b"int a; int main(void){int a; return 0;}", WellTyped),
    // Rule 3.
    (b"int f(void){return 0;}", Refused(Code::Typing(3), 1, 1)),
    (
        b"int f(void){return 0;} int main(void){return 0;}",
        WellTyped,
    ),
    // Rule 4.
    (
        b"short long a; int main(void){return 0;}",
        Refused(Code::Typing(4), 1, 1),
    ),
    (
        b"unsigned long long int a; int main(void){return 0;}",
        WellTyped,
    ),
    // Rule 5.
    (
        b"int n; shared [n] int a[4]; int main(void){return 0;}",
        Refused(Code::Typing(5), 1, 15),
    ),
    (b"shared [2] int a[4]; int main(void){return 0;}", WellTyped),
    // Rule 6.
    (
        b"int main(void){int n; int a[n]; return 0;}",
        Refused(Code::Typing(6), 1, 27),
    ),
    (b"int main(void){int a[4]; return 0;}", WellTyped),
    // Rule 7.
    (
        b"int main(void){shared int a; return 0;}",
        Refused(Code::Typing(7), 1, 27),
    ),
    (b"int main(void){shared int *a; return 0;}", WellTyped),
    // Rule 8.
    (
        b"struct s {}; int main(void){return 0;}",
        Refused(Code::Typing(8), 1, 1),
    ),
    (b"struct s {int a;}; int main(void){return 0;}", WellTyped),
    // Rule 9.
    (
        b"int b; int a = b; int main(void){return 0;}",
        Refused(Code::Typing(9), 1, 12),
    ),
    (b"int a = 2 + 3; int main(void){return 0;}", WellTyped),
    // Rule 10.
    (
        b"int a; int main(void){a(); return 0;}",
        Refused(Code::Typing(10), 1, 23),
    ),
    (
        b"int a(void){return 0;} int main(void){a(); return 0;}",
        WellTyped,
    ),
    // Rule 11.
    (
        b"struct s {int a;}; struct s f(void){} int main(void){return 0;}",
        Refused(Code::Typing(11), 1, 20),
    ),
    (
        b"struct s {int a;}; struct s *f(void){return 0;} int main(void){return 0;}",
        WellTyped,
    ),
    // Rule 12.
    (
        b"int main(void){int a; int *p; a = p; return 0;}",
        Refused(Code::Typing(12), 1, 31),
    ),
    (
        b"int main(void){int a; int *p; a = *p; return 0;}",
        WellTyped,
    ),
    // Rule 13.
    (
        b"int main(void){int a; (a + 1) = 2; return 0;}",
        Refused(Code::Typing(13), 1, 23),
    ),
    (b"int main(void){int a; (a) = 2; return 0;}", WellTyped),
    // Rule 14.
    (
        b"int main(void){int *p; ~p; return 0;}",
        Refused(Code::Typing(14), 1, 24),
    ),
    (b"int main(void){int p; ~p; return 0;}", WellTyped),
    // Rule 15.
    (
        b"upc_lock_t *l; int main(void){l + 1; return 0;}",
        Refused(Code::Typing(15), 1, 31),
    ),
    (
        b"shared int *l; int main(void){l + 1; return 0;}",
        WellTyped,
    ),
    // Rule 16.
    (
        b"int main(void){int *p; long *q; p - q; return 0;}",
        Refused(Code::Typing(16), 1, 33),
    ),
    (
        b"int main(void){int *p; int *q; p - q; return 0;}",
        WellTyped,
    ),
    // Rule 17.
    (
        b"int main(void){int *p; (int)p; return 0;}",
        Refused(Code::Typing(17), 1, 24),
    ),
    (b"int main(void){long p; (int)p; return 0;}", WellTyped),
    // Rule 18.
    (
        b"int main(void){int a; *a; return 0;}",
        Refused(Code::Typing(18), 1, 23),
    ),
    (b"int main(void){int *a; *a; return 0;}", WellTyped),
    // Rule 19.
    (
        b"int main(void){int a; a.b; return 0;}",
        Refused(Code::Typing(19), 1, 23),
    ),
    (
        b"struct s {int b;}; int main(void){struct s a; a.b; return 0;}",
        WellTyped,
    ),
    // Rule 20.
    (
        b"int main(void){int a; &(a + 1); return 0;}",
        Refused(Code::Typing(20), 1, 23),
    ),
    (b"int main(void){int a; &a; return 0;}", WellTyped),
    // Rule 21.
    (
        b"int main(void){sizeof(void); return 0;}",
        Refused(Code::Typing(21), 1, 16),
    ),
    (b"int main(void){sizeof(void *); return 0;}", WellTyped),
    // Rule 22.
    (
        b"struct s {int a;}; struct s x; int main(void){if (x) ; return 0;}",
        Refused(Code::Typing(22), 1, 47),
    ),
    (
        b"struct s {int a;}; struct s x; int main(void){if (x.a) ; return 0;}",
        WellTyped,
    ),
    // Rule 23.
    (
        b"int main(void){break; return 0;}",
        Refused(Code::Typing(23), 1, 16),
    ),
    (b"int main(void){while (1) break; return 0;}", WellTyped),
    // Rule 24.
    (
        b"int main(void){int i;upc_forall(i=0;i<2;i++;i){break;}return 0;}",
        Refused(Code::Typing(24), 1, 48),
    ),
    (
        b"int main(void){int i; upc_forall (i = 0; i < 2; i++; i) {while (1) break;} return 0;}",
        WellTyped,
    ),
    // Rule 25.
    (
        b"int main(void){int a; switch (1) {case a: ;} return 0;}",
        Refused(Code::Typing(25), 1, 23),
    ),
    (
        b"int main(void){switch (1) {case 1: ;} return 0;}",
        WellTyped,
    ),
    // Rule 26.
    (
        b"void f(void){return 1;} int main(void){return 0;}",
        Refused(Code::Typing(26), 1, 14),
    ),
    (
        b"void f(void){return;} int main(void){return 0;}",
        WellTyped,
    ),
    // Rule 27.
    (
        b"int main(void){int *p; upc_barrier p; return 0;}",
        Refused(Code::Typing(27), 1, 24),
    ),
    (
        b"int main(void){int p; upc_barrier p; return 0;}",
        WellTyped,
    ),
    // Rule 28.
    (
        b"int main(void){printf(1); return 0;}",
        Refused(Code::Typing(28), 1, 16),
    ),
    (b"int main(void){printf(\"1\"); return 0;}", WellTyped),
    // Rule 29.
    (
        b"int main(void){upc_alloc(4); return 0;}",
        Refused(Code::Typing(29), 1, 16),
    ),
    (
        b"shared [] int *p; int main(void){p = upc_alloc(4); return 0;}",
        WellTyped,
    ),
    // Rule 30.
    (
        b"int main(void){\"a\"; return 0;}",
        Refused(Code::Typing(30), 1, 16),
    ),
    (b"int main(void){printf(\"a\"); return 0;}", WellTyped),
    // Rule 31.
    (
        b"shared int d; shared int s; int main(void){upc_all_reduceI(&d, &s, UPC_ADD, 1, 1, 1, 0); return 0;}",
        Refused(Code::Typing(31), 1, 44),
    ),
    (
        b"shared int d; shared int s; int main(void){upc_all_reduceI(&d, &s, UPC_ADD, 1, 1, 0, 0); return 0;}",
        WellTyped,
    ),
    // Rule 32.
    (
        b"int main(void){int a[2147483647 + 1]; return 0;}",
        Refused(Code::Typing(32), 1, 22),
    ),
    (
        b"int main(void){int a[2147483647 - 2147483646]; return 0;}",
        WellTyped,
    ),
    // Limits 4 and 5.
    (
        b"shared char a[16777216];\nshared char b;\nint main(void){return 0;}",
        Refused(Code::Limit(5), 2, 1),
    ),
    (
        b"shared char a[16777215];\nshared char b;\nint main(void){return 0;}",
        WellTyped,
    ),
    (
        b"int a[262144]; char b; int main(void){return 0;}",
        Refused(Code::Limit(4), 1, 16),
    ),
    (
        b"int a[262143]; int b; int main(void){return 0;}",
        WellTyped,
    ),
];

// Whether a source has this answer.
fn is_answered<T>(answered: &Result<T, Stop>, answer: &Answer) -> bool {
    match (answered, answer) {
        (Ok(_), WellTyped) => true,
        (Err(Stop::Refused(refusal)), Refused(code, line, column)) => {
            refusal.code == *code && refusal.place.line == *line && refusal.place.column == *column
        }
        _ => false,
    }
}

// Whether a source for two threads has this answer, with its program and without it.
fn comes_to(alloc: Global, source: &[u8], answer: &Answer) -> bool {
    if source.len() > 1_048_576 {
        return false;
    }
    let checked = program_of(alloc, 2, source);
    let passed = accepted(alloc, 2, source);
    is_answered(&checked, answer) && is_answered(&passed, answer)
}

#[test]
fn typing_rules(rt: HostRuntime) -> Result<(), Fail> {
    for (source, answer) in &ROWS {
        assert!(rt; comes_to(rt.alloc(), source, answer));
    }
    Ok(())
}
