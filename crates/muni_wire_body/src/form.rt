//! The forms of bodies.

/// What a body asks for.
#[derive(Clone, Copy, Debug, PartialEq, Eq)]
pub enum Form {
    Issue,
    Amendment,
    Trade,
    Correction,
    Cancellation,
    Quote,
    Check,
}
