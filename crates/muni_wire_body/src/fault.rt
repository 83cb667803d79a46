//! Why a connection has no command.

use thiserror::Error;

/// Why a request is no command.
#[derive(Clone, Copy, Debug, PartialEq, Eq, Error)]
pub enum Bad {
    /// The bytes are no request, or the body is none that its path takes.
    #[error("bad request")]
    BadRequest,
    /// The path is unknown.
    #[error("unknown path")]
    NotFound,
    /// The path takes the other method: POST if `post` is set, else GET.
    #[error("the path takes the other method")]
    NotAllowed { post: bool },
    /// The length of the body is missing.
    #[error("no length of the body")]
    LengthRequired,
    /// The body has more than 65,536 bytes.
    #[error("the body has more than 65,536 bytes")]
    TooLarge,
    /// The head has more than 16,384 bytes, or more than 64 header fields.
    #[error("the head has more than 16,384 bytes or 64 fields")]
    HeadTooLarge,
}

/// Why no command came of a connection.
#[derive(Clone, Copy, Debug, PartialEq, Eq, Error)]
pub enum WireFault {
    #[error(transparent)]
    Bad(Bad),
    /// The bytes ended before the request did.
    #[error("the bytes ended before the request did")]
    Gone,
    /// A take from the connection failed.
    #[error("the connection could not be read")]
    LinkFault,
    #[error("out of memory")]
    NoMemory,
}
