//! A row of the list of what runs show.

/// What runs show, how many of them do, and the picks of one of these.
#[derive(Drop)]
pub struct Row {
    /// How many runs show it.
    pub count: u32,
    /// The picks of one of these runs.
    pub picks: Vec<u32>,
    /// The status of these runs, of docs/FORMATS.md.
    pub status: u8,
    /// What they print, in bytes.
    pub text: Vec<u8>,
    /// Their line on the error output, with its line end, or nothing.
    pub line: Vec<u8>,
}
