//! Programs of which each uses some constructs of the language.

/// A program, and the numbers of threads that run it.
pub struct Source {
    pub text: &'static [u8],
    pub threads: &'static [u32],
}

const ON_ONE: &[u32] = &[1];

const ON_TWO: &[u32] = &[2];

const ON_ALL: &[u32] = &[1, 2, 4];

pub const SOURCES: [Source; 14] = [
    // Integers and their conversions.
    Source {
        text: b"#include <stdio.h>
unsigned char small = 250;
int main(void) {
  unsigned int u = 4000000000U;
  long wide = -5;
  short part = 70000;
  small += 10;
  printf(\"%d %u %ld %d\\n\", small, u + 500000000U, wide / 2 + (-wide % 3 << 4), part);
  printf(\"%d %d %d\\n\", ~7 & 29, (3 < 4) + !0, -1 < 1U ? 1 : 2);
  return small++ + --small;
}
",
        threads: ON_ONE,
    },
    // Loops and the ways out of them.
    Source {
        text: b"#include <stdio.h>
int main(void) {
  int sum = 0;
  for (int i = 0; i < 20; i++) {
    if (i == 3)
      continue;
    else if (i == 12)
      break;
    sum += i;
  }
  int n = 5;
  while (n)
    sum = sum * 2 + n--;
  do {
    sum -= 100;
    if (sum < 0)
      break;
  } while (sum > 50);
  for (;;)
    if (sum++ > 10)
      return sum;
}
",
        threads: ON_ONE,
    },
    // Switches.
    Source {
        text: b"#include <stdio.h>
int pick(int v) {
  int r = 0;
  switch (v) {
  case 1:
    r = 1;
  case 2:
    r += 2;
    break;
  default:
    r = 9;
  case -3:
    r += 30;
  }
  return r;
}
int main(void) {
  for (int v = -4; v < 4; v++)
    printf(\"%d \", pick(v));
  return 0;
}
",
        threads: ON_ONE,
    },
    // Functions that call themselves and each other, and one without `return`.
    Source {
        text: b"#include <stdio.h>
int sum(int n) {
  if (n == 0)
    return 0;
  return n + sum(n - 1);
}
int nothing(int a, int b) {
  a = b;
}
void show(char c, unsigned long v) {
  printf(\"%d %lu\\n\", c, v);
}
int main(void) {
  show(300, sum(40));
  return nothing(1, 2) + sum(5);
}
",
        threads: ON_ONE,
    },
    // Structs, arrays and pointers to private objects.
    Source {
        text: b"#include <stdio.h>
struct Pair { int a; char b; };
struct Pair pairs[3];
int numbers[4] = {1, 2, 3};
int main(void) {
  struct Pair *p = &pairs[1];
  int local[3] = {7, 8};
  int *q = local;
  p->a = numbers[2];
  p->b = 66;
  (*(p + 1)).a = p->a + *(q + 1);
  q++;
  *q += 5;
  printf(\"%d %d %d %ld\\n\", pairs[2].a, pairs[1].b, local[1], (long)(&local[2] - q));
  return q == &local[1] && p < &pairs[2] && numbers[3] == 0;
}
",
        threads: ON_ONE,
    },
    // Operands that decide what is done, and the comma.
    Source {
        text: b"#include <stdio.h>
int calls = 0;
int next(int v) {
  calls = calls + 1;
  return v;
}
int main(void) {
  int a = next(0) && next(1) || next(2);
  int b = next(a) ? next(5) : next(6);
  int c = (next(1), next(2), next(3));
  printf(\"%d %d %d %d\\n\", a, b, c, calls);
  return (c, b);
}
",
        threads: ON_ONE,
    },
    // A run error deep in calls.
    Source {
        text: b"int f(int n) {
  if (n == 0)
    return 1 / n;
  return f(n - 1);
}
int main(void) {
  return f(20);
}
",
        threads: ON_ONE,
    },
    // Ticks, and the Beats that they bring.
    Source {
        text: b"int main(void) {
  int i;
  for (i = 0; i < 3000; i++)
    ;
  while (1)
    ;
  return i;
}
",
        threads: ON_TWO,
    },
    // An exit of all threads.
    Source {
        text: b"#include <upc.h>
int main(void) {
  upc_barrier;
  if (MYTHREAD == THREADS - 1)
    upc_global_exit(3);
  upc_barrier;
  return 0;
}
",
        threads: ON_ALL,
    },
    // Shared arrays, upc_forall and its affinities, strict and relaxed accesses.
    Source {
        text: b"#include <upc_relaxed.h>
#include <stdio.h>
shared int a[20];
shared [3] int b[20];
strict shared int total;
int main(void) {
  int i;
  upc_forall (i = 0; i < 20; i++; &a[i])
    a[i] = i * i;
  upc_forall (i = 0; i < 20; i++; i)
    b[i] = -i;
  upc_barrier 7;
  upc_forall (i = 0; i < 4; i++; continue)
    total = total + 1;
  shared [3] int *p = &b[MYTHREAD];
  int s = 0;
  for (; p < &b[20]; p++)
    s += *p + a[p - b];
  upc_notify;
  printf(\"%d %d %lu\\n\", s, (int)upc_threadof(p), upc_phaseof(p));
  upc_wait;
  upc_fence;
  return 0;
}
",
        threads: ON_ALL,
    },
    // Locks.
    Source {
        text: b"#include <upc_strict.h>
shared int counter;
int main(void) {
  upc_lock_t *lk = upc_all_lock_alloc();
  for (int i = 0; i < 3; i++) {
    upc_lock(lk);
    counter += MYTHREAD + 1;
    upc_unlock(lk);
  }
  while (!upc_lock_attempt(lk))
    ;
  counter++;
  upc_unlock(lk);
  upc_barrier;
  if (MYTHREAD == 0)
    upc_lock_free(lk);
  return counter;
}
",
        threads: ON_ALL,
    },
    // Objects that are made and released.
    Source {
        text: b"#include <upc_relaxed.h>
#include <stddef.h>
int main(void) {
  shared [] int *mine = upc_alloc(4 * sizeof(int));
  shared [2] int *all = upc_all_alloc(THREADS, 2 * sizeof(int));
  for (int i = 0; i < 4; i++)
    mine[i] = i;
  all[2 * MYTHREAD + 1] = mine[3];
  upc_barrier;
  int *local = (int *)&all[2 * MYTHREAD];
  local[0] = local[1] + all[1];
  upc_free(mine);
  upc_all_free(all);
  shared int *none = NULL;
  return none == NULL ? local[0] : *none;
}
",
        threads: ON_ALL,
    },
    // A barrier that not all threads reach.
    Source {
        text: b"#include <upc.h>
int main(void) {
  while (MYTHREAD) {
    upc_barrier;
  }
  return 0;
}
",
        threads: ON_TWO,
    },
    // An error of one thread, which halts the others.
    Source {
        text: b"#include <upc_relaxed.h>
shared int x;
int main(void) {
  int n = 0;
  x = 5;
  if (MYTHREAD == 1)
    n = 1 / n;
  while (1)
    n++;
  return 0;
}
",
        threads: ON_TWO,
    },
];
