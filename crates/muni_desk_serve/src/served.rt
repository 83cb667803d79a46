//! What came of a connection.

/// What came of a connection.
#[derive(Clone, Copy, Debug, PartialEq, Eq)]
pub enum Served {
    /// An answer with the number of this status was written.
    Answered { status: u16 },
    /// The bytes ended before the request did, and nothing was written.
    Gone,
    /// A take from the connection failed, or a put to it. A part of the answer may be written.
    LinkFault,
    /// No memory was left, and nothing was written.
    NoMemory,
}
