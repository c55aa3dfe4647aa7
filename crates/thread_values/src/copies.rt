//! Memory calls by their arguments (UPC 7.2.5).

ghost use Rattle.std.specs.Prelude.{◌≡◌, ◌<◌, ◌≤◌, All, IfSome};
ghost use Rattle.block_layout.specs.Shapes.{IsShape};
ghost use Rattle.std.specs.Option.{option_copied};
ghost use Rattle.thread_steps.specs.layer.Ranges.{IsNumber};
ghost use Rattle.thread_steps.specs.Values.{number_of};
ghost use Rattle.thread_values.specs.layer.Copies as said;
ghost use Rattle.thread_values.specs.layer.Copies.{copies, private_at, shapes_in};

use block_layout::{Kind, LocalPtr, Shape};
use integers::convert;
use private_store::Store;
use upc_library::{CopySpec, Side};
use upc_values::{LibraryCall, Scalar, Value};

// A call of no byte, which does nothing.
const NO_COPY: CopySpec = CopySpec {
    set: false,
    dst: Side::Local(LocalPtr::Null),
    src: Side::Local(LocalPtr::Null),
    bytes: 0,
    byte: 0,
};

/// Whether a call of the library is a memory call.
pub fn is_copying(call: LibraryCall) -> bool
    ensures { result ≡ copies call }
{
    matches!(
        call,
        LibraryCall::Memcpy | LibraryCall::Memget | LibraryCall::Memput | LibraryCall::Memset
    )
}

// Where an argument leads.
fn side_in(v: &Value) -> Side
    ensures { result ≡ said.side_in v.now }
{
    match v {
        Value::Scalar(Scalar::Shared(p)) => Side::Shared(*p),
        Value::Local(p) => Side::Local(*p),
        _ => Side::Local(LocalPtr::Null),
    }
}

// How many bytes an argument says.
fn size_in(v: &Value) -> u64
    requires { IsNumber (number_of v.now) }
    ensures { result ≡ said.size_in v.now }
{
    match v {
        Value::Scalar(Scalar::Int(n)) => n.unsigned_abs() as u64,
        _ => 0,
    }
}

// How many bytes are set.
fn filled_size(byte: &Value, size: &Value) -> u64
    requires { IsNumber (number_of size.now) }
    ensures { result ≡ said.filled_size byte.now size.now }
{
    match byte {
        Value::Scalar(Scalar::Int(_)) => size_in(size),
        _ => 0,
    }
}

// The byte that an argument says.
fn byte_in(v: &Value) -> u8
    requires { IsNumber (number_of v.now) }
    ensures { result ≡ said.byte_in v.now }
{
    match v {
        Value::Scalar(Scalar::Int(n)) => convert(*n, Kind::UChar).unsigned_abs() as u8,
        _ => 0,
    }
}

// The copy that arguments ask for.
fn copy_spec(args: &[Value]) -> CopySpec
    requires { All (λ v. IsNumber (number_of v)) args.now }
    ensures { result ≡ said.copy_spec args.now }
{
    match args {
        [dst, src, size] => CopySpec {
            set: false,
            dst: side_in(dst),
            src: side_in(src),
            bytes: size_in(size),
            byte: 0,
        },
        _ => NO_COPY,
    }
}

// The bytes that arguments ask to set.
fn fill_spec(args: &[Value]) -> CopySpec
    requires { All (λ v. IsNumber (number_of v)) args.now }
    ensures { result ≡ said.fill_spec args.now }
{
    match args {
        [dst, byte, size] => CopySpec {
            set: true,
            dst: side_in(dst),
            src: Side::Local(LocalPtr::Null),
            bytes: filled_size(byte, size),
            byte: byte_in(byte),
        },
        _ => NO_COPY,
    }
}

/// What a memory call asks for by its arguments.
pub fn spec_of(call: LibraryCall, args: &[Value]) -> CopySpec
    requires { All (λ v. IsNumber (number_of v)) args.now }
    ensures { result ≡ said.spec_of call args.now }
{
    match call {
        LibraryCall::Memset => fill_spec(args),
        _ => copy_spec(args),
    }
}

// The shape of the private object on a side.
fn private_at<'a>(store: &'a Store, side: &Side) -> Option<&'a Shape>
    ensures value { option_copied result ≡ private_at (shapes_in store.now) side.now }
    ensures valid { IfSome (option_copied result) IsShape }
{
    match side {
        Side::Local(LocalPtr::Private { object, .. }) => store.shape(*object),
        _ => None,
    }
}

/// The shape of the private object that a memory call names, if it has not ended.
pub fn private_of<'a>(store: &'a Store, call: LibraryCall, spec: &CopySpec) -> Option<&'a Shape>
    ensures value { option_copied result ≡ said.private_of call spec.now (shapes_in store.now) }
    ensures valid { IfSome (option_copied result) IsShape }
{
    match call {
        LibraryCall::Memget => private_at(store, &spec.dst),
        LibraryCall::Memput => private_at(store, &spec.src),
        _ => None,
    }
}
