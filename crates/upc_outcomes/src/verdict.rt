//! The verdict of the top call, before it is written.

use outcomes::Row;
use upc_text::Refusal;
use upc_values::{Journal, Orders};

/// The verdict of the top call.
#[derive(Drop)]
pub enum Verdict {
    /// The words are refused.
    Usage,
    /// A read of the file failed.
    ReadFault,
    /// The file has more bytes than a source may have.
    TooLong,
    /// The source is refused.
    Refused(Refusal),
    /// So many runs of the source show this.
    Found(u32, Vec<Row>),
    /// The source ran, with these orders, and its record was asked for.
    Recorded(Journal, Orders),
    /// The source ran, its record was asked for, and is too long for a text.
    Overlong,
    /// Memory was wanting.
    NoMemory,
}
