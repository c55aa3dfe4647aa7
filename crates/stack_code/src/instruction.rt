//! The instructions.
//!
//! An instruction takes operands from the stack and leaves operands there. In the table below `a b -> v` says that b
//! lay on top of a, and that v lies there instead. The next column says what is done to objects and asked
//! for, and the last one the section of C99 for that, or of UPC 1.3 where that is said.
//!
//! | instruction | operands | what it does | section |
//! |---|---|---|---|
//! | `Push(v)` | `-> v` | a constant, or the place of an object of the file | 6.5.1 |
//! | `Me` | `-> n` | the number of the thread | UPC 6.4.1 |
//! | `Pop` | `a ->` | | 6.8.3 |
//! | `Copy` | `a -> a a` | | |
//! | `Over` | `a b -> a b a` | | |
//! | `Swap` | `a b -> b a` | | |
//! | `Truth` | `a -> v` | 1 where a is not 0, else 0 | 6.5.13 |
//! | `Not` | `a -> v` | 1 where a is 0, else 0 | 6.5.3.3 |
//! | `Operate` | `a b -> v` | a binary operator on integers | 6.5.5 to 6.5.12 |
//! | `Apply` | `a -> v` | a unary operator on an integer | 6.5.3.3 |
//! | `Cast(to)` | `a -> v` | a conversion | 6.3, UPC 6.4.3 |
//! | `Advance` | `p i -> v` | the pointer i objects after p | 6.5.6, UPC 6.4.2 |
//! | `Retreat` | `p i -> v` | the pointer i objects before p | 6.5.6, UPC 6.4.2 |
//! | `InRow(n)` | `p i q -> q` | a run error unless i is from 0 to n - 1 | 6.5.2.1 |
//! | `Member(n)` | `p -> v` | the pointer to the member n bytes after p | 6.5.2.3 |
//! | `Difference` | `q p -> v` | how many elements q lies after p | 6.5.6, UPC 6.4.2 |
//! | `Order` | `q p -> v` | whether q stands so to p | 6.5.8, UPC 6.4.2 |
//! | `Same` | `q p -> v` | whether q and p are equal pointers | 6.5.9, UPC 6.4.2 |
//! | `Local(n)` | `-> p` | where the n-th local object in scope lies | 6.2.4 |
//! | `Load` | `p -> v` | what a cell holds | 6.3.2.1, UPC 6.5.1.1 |
//! | `Save` | `p v -> v` | a new value of a cell | 6.5.16, UPC 6.5.1.1 |
//! | `Enter` | | a block begins | 6.8.2 |
//! | `Leave` | | the youngest block ends | 6.8.2 |
//! | `GoOn(n)` | | passes n instructions | 6.8.4 |
//! | `SkipIfZero(n)` | `a ->` | passes n instructions where a is 0 | 6.8.4, 6.8.5 |
//! | `SkipIfControlled(n)` | | passes n where a controlling upc_forall is on | UPC 6.6.2 |
//! | `Case` | `a -> a` or `a ->` | where a is the label, passes n instructions without it | 6.8.4.2 |
//! | `Tick` | | a tick | |
//! | `GoBack(n)` | | a tick, and goes back over n instructions | 6.8.5 |
//! | `Exit` | | leaves blocks, and passes n instructions | 6.8.6 |
//! | `CallTo` | `a .. -> v` | a tick, and a call with the operands as arguments | 6.5.2.2 |
//! | `Begin(f)` | `-> v` | a call of f without arguments and without a tick | 5.1.2.2.1 |
//! | `Receive` | | the parameters get the values of the arguments | 6.5.2.2 |
//! | `GiveBack(k)` | `v ->` | k blocks end, and then the call, which gives v | 6.8.6.4 |
//! | `Quit` | `v ->` | the thread ends with v | 5.1.2.2.3 |
//! | `Notify(m)`, `Wait(m)` | | upc_notify, upc_wait | UPC 6.6.1 |
//! | `NotifyValue`, `WaitValue` | `v ->` | the same with a value | UPC 6.6.1 |
//! | `Fence` | | upc_fence | UPC 6.6.1 |
//! | `Control`, `Release` | | the body of a controlling upc_forall begins, ends | UPC 6.6.2 |
//! | `Mine` | `a -> v` | 1 where a turn with affinity a is the thread's, else 0 | UPC 6.6.2 |
//! | `Library` | `a .. -> v` | a call of the library with the operands as arguments | UPC 7.2, 7.3 |
//! | `Print` | `a .. -> v` | printf with the operands as arguments after the format | 7.19.6.3 |

use block_layout::{Kind, Shape};
use integers::{BinOp, UnOp};
use thread_steps::{CastTo, Elements};
use upc_text::{Place, Text};
use upc_values::{LibraryCall, Listing, Mark, Value};

/// An access to a cell (UPC 6.5.1.1).
#[derive(Clone, Copy)]
pub struct CellAccess {
    pub kind: Kind,
    pub strict: bool,
}

/// Work on the stack alone.
#[derive(Clone, Copy)]
pub enum StackWork {
    Push(Value),
    Me,
    Pop,
    Copy,
    Over,
    Swap,
    Truth,
    Not,
}

/// Values made of values.
#[derive(Clone, Copy)]
pub enum ValueWork {
    /// The left operand at the kind at which the operator works, the right one at its own.
    Operate {
        operator: BinOp,
        left: Kind,
        right: Kind,
    },
    Apply {
        operator: UnOp,
        kind: Kind,
    },
    Cast(CastTo),
    /// Each object has `count` elements.
    Advance {
        elements: Elements,
        count: u32,
    },
    /// Each object has `count` elements.
    Retreat {
        elements: Elements,
        count: u32,
    },
    /// How many elements the row has.
    InRow(u32),
    /// The bytes before the member.
    Member(u32),
    Difference(Elements),
    Order {
        operator: BinOp,
        elements: Elements,
    },
    Same,
}

/// Work on objects.
#[derive(Drop)]
pub enum ObjectWork {
    /// The number of the name among those of the function in scope, from 0.
    Local(u32),
    Load(CellAccess),
    Save(CellAccess),
    /// So many names of the function are in scope before the block, and its own objects have these shapes.
    Enter { from: u32, shapes: Listing<Shape> },
    Leave,
}

/// Ways through a function. A distance is the number of instructions that are passed.
#[derive(Clone, Copy)]
pub enum Jump {
    GoOn(usize),
    SkipIfZero(usize),
    SkipIfControlled(usize),
    Case { label: i128, distance: usize },
    Tick,
    /// The distance from this instruction back to that one.
    GoBack(usize),
    Exit { blocks: usize, distance: usize },
}

/// Calls. Functions have numbers from 0; a thread begins in function 0.
#[derive(Drop)]
pub enum CallWork {
    CallTo { function: usize, arguments: usize },
    Begin(usize),
    /// For each parameter the access that keeps the argument, where it is a scalar.
    Receive(Listing<Option<CellAccess>>),
    /// So many blocks of the call are open.
    GiveBack(usize),
    Quit,
}

/// What a thread does among the others.
#[derive(Drop)]
pub enum ThreadWork {
    Notify(Mark),
    Wait(Mark),
    NotifyValue,
    WaitValue,
    Fence,
    Control,
    Release,
    Mine,
    /// An allocation makes elements of the shape with this number.
    Library {
        call: LibraryCall,
        shape: u32,
        arguments: usize,
    },
    Print {
        format: Text,
        arguments: usize,
    },
}

/// What an instruction does.
#[derive(Drop)]
pub enum Operation {
    Stack(StackWork),
    Value(ValueWork),
    Object(ObjectWork),
    Way(Jump),
    Call(CallWork),
    Thread(ThreadWork),
}

/// An instruction, with the place in the source of its run errors.
#[derive(Drop)]
pub struct Instr {
    pub place: Place,
    pub does: Operation,
}
