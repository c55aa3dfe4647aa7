//! Blanks and comments (C99 6.4, 6.4.9).
ghost use Rattle.std.specs.Prelude.{◌≡◌, ◌≤◌, length, take, IfSome, IfNone};
ghost use Rattle.std.specs.List.{prefix_len};
ghost use Rattle.upc_lexer.specs.Bytes.{is_in_line};
ghost use Rattle.upc_lexer.specs.Gaps.{Closes, IsCommentEnd, FindsGap};

use crate::bytes::{is_blank, is_in_line};
use crate::splices::{ends_in_splice, has_spliced_end};

/// What stands between tokens at some place.
pub(crate) enum Gap {
    /// A blank or a comment of so many bytes.
    Taken(usize),
    /// A comment that nothing closes, or that ends elsewhere without its splices.
    Refused,
    /// Neither a blank nor a comment.
    Absent,
}

/// How many bytes stand before the end of the line.
fn line_length(bytes: &[u8]) -> usize
    ensures { result ≡ prefix_len is_in_line bytes.now }
{
    bytes.iter().take_while(|byte| is_in_line(**byte)).count()
}

/// How many bytes there are up to the first `*/`, with it.
fn comment_length(bytes: &[u8]) -> Option<usize>
    ensures within { IfSome result (λ n. n ≤ length bytes.now) }
    ensures found { IfSome result (λ n. IsCommentEnd (take n bytes.now)) }
    ensures none { IfNone result (Closes bytes.now → ⊥) }
{
    for i in 1..bytes.len() {
        if bytes[i - 1] == b'*' && bytes[i] == b'/' {
            return Some(i + 1);
        }
    }
    None
}

/// The blank or the comment at the front of the bytes.
pub(crate) fn gap_at(bytes: &[u8]) -> Gap
    ensures { FindsGap bytes.now result }
{
    match bytes {
        [byte, ..] if is_blank(*byte) => Gap::Taken(1),
        [b'/', b'/', rest @ ..] => {
            let length = line_length(rest);
            if ends_in_splice(&rest[..length]) {
                Gap::Refused
            } else {
                Gap::Taken(2 + length)
            }
        }
        [b'/', b'*', rest @ ..] => match comment_length(rest) {
            Some(length) => {
                if has_spliced_end(&rest[..length]) {
                    Gap::Refused
                } else {
                    Gap::Taken(2 + length)
                }
            }
            None => Gap::Refused,
        },
        _ => Gap::Absent,
    }
}
