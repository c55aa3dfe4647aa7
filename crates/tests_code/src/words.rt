//! Instructions as words, each under its name in the table of docs/MEANING.md with what it names.

use block_layout::{Kind, LocalPtr};
use integers::{BinOp, UnOp};
use stack_code::{
    CallWork, CellAccess, Code, Instr, Jump, ObjectWork, Operation, StackWork, ThreadWork,
    ValueWork,
};
use std::alloc::{AllocError as OutOfMemory, Global};
use thread_steps::{CastTo, Elements};
use upc_values::{Mark, Scalar, Value};

fn kind_word(kind: Kind) -> &'static str {
    match kind {
        Kind::Char => " char",
        Kind::UChar => " unsigned-char",
        Kind::Short => " short",
        Kind::UShort => " unsigned-short",
        Kind::Int => " int",
        Kind::UInt => " unsigned-int",
        Kind::Long => " long",
        Kind::ULong => " unsigned-long",
        Kind::Shared(_, _) => " pointer-to-shared",
        Kind::Lock => " pointer-to-lock",
        Kind::Private(_) => " pointer-to-private",
    }
}

fn binary_word(operator: BinOp) -> &'static str {
    match operator {
        BinOp::Multiply => " *",
        BinOp::Divide => " /",
        BinOp::Remainder => " %",
        BinOp::Add => " +",
        BinOp::Subtract => " -",
        BinOp::ShiftLeft => " <<",
        BinOp::ShiftRight => " >>",
        BinOp::Less => " <",
        BinOp::Greater => " >",
        BinOp::LessEqual => " <=",
        BinOp::GreaterEqual => " >=",
        BinOp::Equal => " ==",
        BinOp::NotEqual => " !=",
        BinOp::BitAnd => " &",
        BinOp::BitXor => " ^",
        BinOp::BitOr => " |",
    }
}

fn unary_word(operator: UnOp) -> &'static str {
    match operator {
        UnOp::Plus => " +",
        UnOp::Minus => " -",
        UnOp::Complement => " ~",
        UnOp::Not => " !",
    }
}

fn cast_word(into: CastTo) -> &'static str {
    match into {
        CastTo::Integer(kind) => kind_word(kind),
        CastTo::Shared => " pointer-to-shared",
        CastTo::OtherBlock => " pointer-to-shared-of-another-block",
        CastTo::Local => " pointer-to-private",
        CastTo::Lock => " pointer-to-lock",
        CastTo::Nothing => " void",
    }
}

fn stack_word(work: StackWork) -> &'static str {
    match work {
        StackWork::Push(_) => "Push",
        StackWork::Me => "Me",
        StackWork::Pop => "Pop",
        StackWork::Copy => "Copy",
        StackWork::Over => "Over",
        StackWork::Swap => "Swap",
        StackWork::Truth => "Truth",
        StackWork::Not => "Not",
    }
}

fn value_word(work: ValueWork) -> &'static str {
    match work {
        ValueWork::Operate { .. } => "Operate",
        ValueWork::Apply { .. } => "Apply",
        ValueWork::Cast(_) => "Cast",
        ValueWork::Advance { .. } => "Advance",
        ValueWork::Retreat { .. } => "Retreat",
        ValueWork::InRow(_) => "InRow",
        ValueWork::Member(_) => "Member",
        ValueWork::Difference(_) => "Difference",
        ValueWork::Order { .. } => "Order",
        ValueWork::Same => "Same",
    }
}

fn object_word(work: &ObjectWork) -> &'static str {
    match work {
        ObjectWork::Local(_) => "Local",
        ObjectWork::Load(_) => "Load",
        ObjectWork::Save(_) => "Save",
        ObjectWork::Enter { .. } => "Enter",
        ObjectWork::Leave => "Leave",
    }
}

fn jump_word(work: Jump) -> &'static str {
    match work {
        Jump::GoOn(_) => "GoOn",
        Jump::SkipIfZero(_) => "SkipIfZero",
        Jump::SkipIfControlled(_) => "SkipIfControlled",
        Jump::Case { .. } => "Case",
        Jump::Tick => "Tick",
        Jump::GoBack(_) => "GoBack",
        Jump::Exit { .. } => "Exit",
    }
}

fn call_word(work: &CallWork) -> &'static str {
    match work {
        CallWork::CallTo { .. } => "CallTo",
        CallWork::Begin(_) => "Begin",
        CallWork::Receive(_) => "Receive",
        CallWork::GiveBack(_) => "GiveBack",
        CallWork::Quit => "Quit",
    }
}

fn thread_word(work: &ThreadWork) -> &'static str {
    match work {
        ThreadWork::Notify(_) => "Notify",
        ThreadWork::Wait(_) => "Wait",
        ThreadWork::NotifyValue => "NotifyValue",
        ThreadWork::WaitValue => "WaitValue",
        ThreadWork::Fence => "Fence",
        ThreadWork::Control => "Control",
        ThreadWork::Release => "Release",
        ThreadWork::Mine => "Mine",
        ThreadWork::Library { .. } => "Library",
        ThreadWork::Print { .. } => "Print",
    }
}

/// The name of an instruction.
pub fn word(operation: &Operation) -> &'static str {
    match operation {
        Operation::Stack(work) => stack_word(*work),
        Operation::Value(work) => value_word(*work),
        Operation::Object(work) => object_word(work),
        Operation::Way(work) => jump_word(*work),
        Operation::Call(work) => call_word(work),
        Operation::Thread(work) => thread_word(work),
    }
}

/// Adds a number after a space.
pub fn put_number(text: &mut String, number: i128) -> Result<(), OutOfMemory> {
    write!(text, " {number}")
}

/// Adds the mark of a notify or a wait.
pub fn put_mark(text: &mut String, mark: Mark) -> Result<(), OutOfMemory> {
    match mark {
        Mark::Absent => Ok(()),
        Mark::Start => text.push_str(" start"),
        Mark::Finish => text.push_str(" finish"),
        Mark::Given(value) => put_number(text, i128::from(value)),
    }
}

// A number; a pointer to a shared object by its number, from 1 on, else 0; a pointer to an object of the file by its
// number, from 0 on.
fn put_value(text: &mut String, value: Value) -> Result<(), OutOfMemory> {
    match value {
        Value::Scalar(Scalar::Int(number)) => put_number(text, number),
        Value::Scalar(Scalar::Shared(p)) => {
            text.push_str(" shared")?;
            put_number(text, i128::from(p.object.number))
        }
        Value::Scalar(Scalar::Lock(number)) => {
            text.push_str(" lock")?;
            put_number(text, i128::from(number))
        }
        Value::Local(LocalPtr::Private { object, .. }) => {
            text.push_str(" private")?;
            put_number(text, i128::from(object))
        }
        Value::Local(_) => text.push_str(" null"),
    }
}

// The block and the size of elements.
fn put_elements(text: &mut String, elements: Elements) -> Result<(), OutOfMemory> {
    put_number(text, i128::from(elements.block))?;
    put_number(text, i128::from(elements.size))
}

fn put_value_work(text: &mut String, work: ValueWork) -> Result<(), OutOfMemory> {
    match work {
        ValueWork::Operate {
            operator,
            left,
            right,
        } => {
            text.push_str(binary_word(operator))?;
            text.push_str(kind_word(left))?;
            text.push_str(kind_word(right))
        }
        ValueWork::Apply { operator, kind } => {
            text.push_str(unary_word(operator))?;
            text.push_str(kind_word(kind))
        }
        ValueWork::Cast(into) => text.push_str(cast_word(into)),
        ValueWork::Advance { elements, count } | ValueWork::Retreat { elements, count } => {
            put_elements(text, elements)?;
            put_number(text, i128::from(count))
        }
        ValueWork::InRow(count) | ValueWork::Member(count) => put_number(text, i128::from(count)),
        ValueWork::Difference(elements) => put_elements(text, elements),
        ValueWork::Order { operator, elements } => {
            text.push_str(binary_word(operator))?;
            put_elements(text, elements)
        }
        ValueWork::Same => Ok(()),
    }
}

fn put_access(text: &mut String, access: CellAccess) -> Result<(), OutOfMemory> {
    text.push_str(kind_word(access.kind))?;
    text.push_str(if access.strict { " strict" } else { " relaxed" })
}

fn put_object_work(text: &mut String, work: &ObjectWork) -> Result<(), OutOfMemory> {
    match work {
        ObjectWork::Local(number) => put_number(text, i128::from(*number)),
        ObjectWork::Load(access) | ObjectWork::Save(access) => put_access(text, *access),
        ObjectWork::Enter { from, shapes } => {
            put_number(text, i128::from(*from))?;
            for shape in shapes.as_slice() {
                write!(text, " {}-bytes", shape.size)?;
            }
            Ok(())
        }
        ObjectWork::Leave => Ok(()),
    }
}

fn put_jump(text: &mut String, work: Jump) -> Result<(), OutOfMemory> {
    match work {
        Jump::GoOn(distance)
        | Jump::SkipIfZero(distance)
        | Jump::SkipIfControlled(distance)
        | Jump::GoBack(distance) => put_number(text, distance as i128),
        Jump::Case { label, distance } => {
            put_number(text, label)?;
            put_number(text, distance as i128)
        }
        Jump::Exit { blocks, distance } => {
            put_number(text, blocks as i128)?;
            put_number(text, distance as i128)
        }
        Jump::Tick => Ok(()),
    }
}

fn put_call(text: &mut String, work: &CallWork) -> Result<(), OutOfMemory> {
    match work {
        CallWork::CallTo {
            function,
            arguments,
        } => {
            put_number(text, *function as i128)?;
            put_number(text, *arguments as i128)
        }
        CallWork::Begin(function) => put_number(text, *function as i128),
        CallWork::Receive(accesses) => {
            for access in accesses.as_slice() {
                text.push_str(access.map_or(" nothing", |a| kind_word(a.kind)))?;
            }
            Ok(())
        }
        CallWork::GiveBack(blocks) => put_number(text, *blocks as i128),
        CallWork::Quit => Ok(()),
    }
}

fn put_thread_work(text: &mut String, work: &ThreadWork) -> Result<(), OutOfMemory> {
    match work {
        ThreadWork::Notify(mark) | ThreadWork::Wait(mark) => put_mark(text, *mark),
        ThreadWork::Library {
            call,
            arguments,
            ..
        } => write!(text, " {call:?} {arguments}"),
        ThreadWork::Print { arguments, .. } => put_number(text, *arguments as i128),
        _ => Ok(()),
    }
}

// Adds an instruction, in a line that begins with its place in the source.
fn put_line(text: &mut String, instr: &Instr) -> Result<(), OutOfMemory> {
    let at = instr.place;
    write!(text, "{}:{} ", at.line, at.column)?;
    text.push_str(word(&instr.does))?;
    match &instr.does {
        Operation::Stack(StackWork::Push(value)) => put_value(text, *value)?,
        Operation::Stack(_) => {}
        Operation::Value(work) => put_value_work(text, *work)?,
        Operation::Object(work) => put_object_work(text, work)?,
        Operation::Way(work) => put_jump(text, *work)?,
        Operation::Call(work) => put_call(text, work)?,
        Operation::Thread(work) => put_thread_work(text, work)?,
    }
    text.push_str("\n")
}

/// The instructions of a function, a line each.
pub fn text_of(alloc: Global, code: &Code, function: usize) -> Result<String, OutOfMemory> {
    let mut text = String::new(alloc);
    for place in 0..code.size(function) {
        if let Some(instr) = code.fetch(function, place) {
            put_line(&mut text, instr)?;
        }
    }
    Ok(text)
}
