//! The code of five small programs, as text: an instruction a line, after the place in the source that its run errors
//! name. docs/CODE.md says what each instruction does. Function 0 is what a thread begins with, and the functions of
//! the source follow. The names of objects of a function are numbered from 0, and shared objects from 1.

use crate::front::program_of;
use crate::words::text_of;
use gen_stmt::compile;
use std::alloc::Global;
use std::test::Fail;
use upc_text::Stop;

// A function of the code of a source for 2 threads.
struct Listed {
    source: &'static [u8],
    function: usize,
    text: &'static str,
}

const ASSIGNMENT: &[u8] = b"strict shared int x;
shared int y;
int main(void) {
  x = y;
  return 0;
}
";

const LOOP: &[u8] = b"int main(void) {
  int i;
  for (i = 0; i < 9; i++) {
    if (i == 5)
      break;
  }
  return i;
}
";

const SWITCH: &[u8] = b"int main(void) {
  int r = 0;
  switch (MYTHREAD) {
  case 0:
    r = 1;
  case 1:
    r += 2;
    break;
  default:
    r = 4;
  }
  return r;
}
";

const RECURSION: &[u8] = b"int sum(int n) {
  if (n == 0)
    return 0;
  return n + sum(n - 1);
}
int main(void) {
  return sum(3);
}
";

const FORALL: &[u8] = b"shared int a[8];
int main(void) {
  int i;
  upc_forall (i = 0; i < 8; i++; &a[i])
    a[i] = i;
  return 0;
}
";

const LISTED: [Listed; 7] = [
    // The barrier before main, main, and the barrier after it.
    Listed {
        source: ASSIGNMENT,
        function: 0,
        text: "3:1 Notify start
3:1 Wait start
3:1 Begin 1
3:1 Notify finish
3:1 Wait finish
3:1 Quit
",
    },
    // An assignment to a shared object: where it lies, the value, its conversion.
    Listed {
        source: ASSIGNMENT,
        function: 1,
        text: "3:16 Enter 0
3:16 Receive
4:3 Push shared 1
4:7 Push shared 2
4:7 Load int relaxed
4:7 Cast int
4:3 Save int strict
4:3 Pop
5:10 Push 0
5:10 Cast int
5:3 GiveBack 1
3:16 Leave
3:1 Push 0
3:1 GiveBack 0
",
    },
    // A loop with a break, which leaves a block and passes the rest of the loop.
    Listed {
        source: LOOP,
        function: 1,
        text: "1:16 Enter 0 4-bytes
1:16 Receive
3:3 Enter 1
3:8 Local 0
3:12 Push 0
3:12 Cast int
3:8 Save int relaxed
3:8 Pop
3:3 Tick
3:15 Local 0
3:15 Load int relaxed
3:19 Push 9
3:15 Operate < int int
3:3 SkipIfZero 18
3:27 Enter 1
4:9 Local 0
4:9 Load int relaxed
4:14 Push 5
4:9 Operate == int int
4:5 SkipIfZero 2
5:7 Exit 1 11
4:5 GoOn 0
3:27 Leave
3:22 Local 0
3:22 Copy
3:22 Load int relaxed
3:22 Push 1
3:22 Operate + int int
3:22 Cast int
3:22 Save int relaxed
3:22 Pop
3:3 GoBack 22
3:3 Leave
7:10 Local 0
7:10 Load int relaxed
7:10 Cast int
7:3 GiveBack 1
1:16 Leave
1:1 Push 0
1:1 GiveBack 0
",
    },
    // A switch that falls through: the comparisons, then the whole body.
    Listed {
        source: SWITCH,
        function: 1,
        text: "1:16 Enter 0 4-bytes
1:16 Receive
2:3 Local 0
2:11 Push 0
2:11 Cast int
2:3 Save int relaxed
2:3 Pop
3:11 Me
3:3 Cast int
3:3 Case 0 3
3:3 Case 1 7
3:3 Pop
3:3 GoOn 15
5:5 Local 0
5:9 Push 1
5:9 Cast int
5:5 Save int relaxed
5:5 Pop
7:5 Local 0
7:10 Push 2
7:5 Over
7:5 Load int relaxed
7:5 Swap
7:5 Operate + int int
7:5 Cast int
7:5 Save int relaxed
7:5 Pop
8:5 Exit 0 5
10:5 Local 0
10:9 Push 4
10:9 Cast int
10:5 Save int relaxed
10:5 Pop
12:10 Local 0
12:10 Load int relaxed
12:10 Cast int
12:3 GiveBack 1
1:16 Leave
1:1 Push 0
1:1 GiveBack 0
",
    },
    // A recursion: the argument comes after the left operand of the sum, which stays below the operands of the call.
    Listed {
        source: RECURSION,
        function: 1,
        text: "1:16 Enter 0 4-bytes
1:16 Receive int
2:7 Local 0
2:7 Load int relaxed
2:12 Push 0
2:7 Operate == int int
2:3 SkipIfZero 4
3:12 Push 0
3:12 Cast int
3:5 GiveBack 1
2:3 GoOn 0
4:10 Local 0
4:10 Load int relaxed
4:18 Local 0
4:18 Load int relaxed
4:22 Push 1
4:18 Operate - int int
4:18 Cast int
4:14 CallTo 1 1
4:10 Operate + int int
4:10 Cast int
4:3 GiveBack 1
1:16 Leave
1:1 Push 0
1:1 GiveBack 0
",
    },
    Listed {
        source: RECURSION,
        function: 2,
        text: "6:16 Enter 0
6:16 Receive
7:14 Push 3
7:14 Cast int
7:10 CallTo 1 1
7:10 Cast int
7:3 GiveBack 1
6:16 Leave
6:1 Push 0
6:1 GiveBack 0
",
    },
    // A upc_forall: inside another that controls the body is done without a look at the affinity, and where the turn is
    // another thread's it is passed.
    Listed {
        source: FORALL,
        function: 1,
        text: "2:16 Enter 0 4-bytes
2:16 Receive
4:3 Enter 1
4:15 Local 0
4:19 Push 0
4:19 Cast int
4:15 Save int relaxed
4:15 Pop
4:3 Tick
4:22 Local 0
4:22 Load int relaxed
4:26 Push 8
4:22 Operate < int int
4:3 SkipIfZero 27
4:3 SkipIfControlled 6
4:35 Push shared 1
4:37 Local 0
4:37 Load int relaxed
4:35 Advance 1 4 1
4:34 Mine
4:3 SkipIfZero 11
4:3 Control
5:5 Push shared 1
5:7 Local 0
5:7 Load int relaxed
5:5 Advance 1 4 1
5:12 Local 0
5:12 Load int relaxed
5:12 Cast int
5:5 Save int relaxed
5:5 Pop
4:3 Release
4:29 Local 0
4:29 Copy
4:29 Load int relaxed
4:29 Push 1
4:29 Operate + int int
4:29 Cast int
4:29 Save int relaxed
4:29 Pop
4:3 GoBack 31
4:3 Leave
6:10 Push 0
6:10 Cast int
6:3 GiveBack 1
2:16 Leave
2:1 Push 0
2:1 GiveBack 0
",
    },
];

// The text of a function of a source.
fn listed_text(alloc: Global, listed: &Listed) -> Result<String, Stop> {
    let program = program_of(alloc, 2, listed.source)?;
    let code = compile(alloc, &program)?;
    Ok(text_of(alloc, &code, listed.function)?)
}

#[test]
fn code_of_five_programs(rt: HostRuntime) -> Result<(), Fail> {
    for (number, listed) in LISTED.iter().enumerate() {
        let text = listed_text(rt.alloc(), listed)?;
        assert_eq!(rt; text.as_str(), listed.text, "{number}");
    }
    Ok(())
}
