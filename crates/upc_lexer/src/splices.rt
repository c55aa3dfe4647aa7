//! What C99 replaces or takes away before there are tokens (C99 5.1.1.2).
ghost use Rattle.std.specs.Prelude.{◌≡◌, ◌≤◌, length};
ghost use Rattle.upc_lexer.specs.Splices.{ends_trigraph, opens_trigraph, has_trigraph, ends_in_splice};
ghost use Rattle.upc_lexer.specs.Splices.{splice_length, opens_slash_or_splice, opens_spliced_end, has_spliced_end};

/// With `??` before it the byte makes a trigraph.
fn ends_trigraph(byte: u8) -> bool
    ensures { result ≡ ends_trigraph byte }
{
    matches!(
        byte,
        b'=' | b'/' | b'\'' | b'(' | b')' | b'!' | b'<' | b'>' | b'-'
    )
}

/// A trigraph is at the front.
pub(crate) fn opens_trigraph(bytes: &[u8]) -> bool
    ensures { result ≡ opens_trigraph bytes.now }
{
    match bytes {
        [a, b, c, ..] => *a == b'?' && *b == b'?' && ends_trigraph(*c),
        _ => false,
    }
}

/// A trigraph stands somewhere in the bytes.
pub(crate) fn has_trigraph(bytes: &[u8]) -> bool
    ensures { result ≡ has_trigraph bytes.now }
{
    for at in 0..bytes.len() {
        if opens_trigraph(&bytes[at..]) {
            return true;
        }
    }
    false
}

/// The line ends in `\` or in `??/`, a byte 13 after it aside.
pub(crate) fn ends_in_splice(line: &[u8]) -> bool
    ensures { result ≡ ends_in_splice line.now }
{
    line.ends_with(b"\\")
        || line.ends_with(b"\\\r")
        || line.ends_with(b"??/")
        || line.ends_with(b"??/\r")
}

/// How many bytes at the front are a splice, and 0 where none is.
fn splice_length(bytes: &[u8]) -> usize
    ensures length { result ≡ splice_length bytes.now }
    ensures within { result ≤ length bytes.now }
{
    if bytes.starts_with(b"\\\n") {
        2
    } else if bytes.starts_with(b"\\\r\n") {
        3
    } else if bytes.starts_with(b"??/\n") {
        4
    } else if bytes.starts_with(b"??/\r\n") {
        5
    } else {
        0
    }
}

/// A `/` or a splice is at the front.
fn opens_slash_or_splice(bytes: &[u8]) -> bool
    ensures { result ≡ opens_slash_or_splice bytes.now }
{
    bytes.starts_with(b"/") || splice_length(bytes) > 0
}

/// At the front are `*`, a splice, and then `/` or a further splice.
fn opens_spliced_end(bytes: &[u8]) -> bool
    ensures { result ≡ opens_spliced_end bytes.now }
{
    match bytes {
        [b'*', rest @ ..] => {
            let length = splice_length(rest);
            length > 0 && opens_slash_or_splice(&rest[length..])
        }
        _ => false,
    }
}

/// Such an end stands somewhere in the bytes.
pub(crate) fn has_spliced_end(bytes: &[u8]) -> bool
    ensures { result ≡ has_spliced_end bytes.now }
{
    for at in 0..bytes.len() {
        if opens_spliced_end(&bytes[at..]) {
            return true;
        }
    }
    false
}
