//! The statuses of answers.

ghost use Rattle.std.specs.Prelude.{◌≡◌, ◌≤◌, length};
ghost use Rattle.muni_wire.specs.HttpStatus as spec;

use http::StatusCode;
use muni_msg::Refusal;
use muni_wire_body::Bad;

/// The statuses of answers (RFC 9110, section 15).
#[derive(Clone, Copy, Debug, PartialEq, Eq)]
pub enum HttpStatus {
    Success,
    BadRequest,
    NotFound,
    NotAllowed,
    Conflict,
    LengthRequired,
    TooLarge,
    Unprocessable,
    HeadTooLarge,
    Unavailable,
}

impl HttpStatus {
    /// The status of a refusal. What is unknown is not found, what contradicts the book is a
    /// conflict, and all else that is refused cannot be processed.
    pub(crate) fn of_refusal(refusal: &Refusal) -> HttpStatus
        ensures { result ≡ spec.status_of_refusal refusal.now }
    {
        match refusal {
            Refusal::UnknownIssue | Refusal::UnknownTrade => HttpStatus::NotFound,
            Refusal::Conflict(_)
            | Refusal::Canceled
            | Refusal::WrongNumber { .. }
            | Refusal::VersionsFull
            | Refusal::DeskFull => HttpStatus::Conflict,
            _ => HttpStatus::Unprocessable,
        }
    }

    /// The status of a bad request.
    pub(crate) fn of_bad(bad: Bad) -> HttpStatus
        ensures { result ≡ spec.status_of_bad bad }
    {
        match bad {
            Bad::BadRequest => HttpStatus::BadRequest,
            Bad::NotFound => HttpStatus::NotFound,
            Bad::NotAllowed { .. } => HttpStatus::NotAllowed,
            Bad::LengthRequired => HttpStatus::LengthRequired,
            Bad::TooLarge => HttpStatus::TooLarge,
            Bad::HeadTooLarge => HttpStatus::HeadTooLarge,
        }
    }

    /// The number of the status.
    pub fn code(self) -> u16
        ensures { result ≡ spec.code self }
    {
        self.of_http().as_u16()
    }

    /// The phrase of the status.
    #[tactic(auto, using(crate::proofs::StatusLemmas::phrase_there, crate::proofs::StatusLemmas::phrase_short))]
    pub(crate) fn phrase(self) -> &'static [u8]
        ensures text { result.now ≡ spec.phrase self }
        ensures short { length result.now ≤ 31 }
    {
        match self.of_http().canonical_reason() {
            Some(phrase) => phrase.as_bytes(),
            None => unreachable!(),
        }
    }

    fn of_http(self) -> StatusCode
        ensures { result ≡ spec.code self }
    {
        match self {
            HttpStatus::Success => StatusCode::OK,
            HttpStatus::BadRequest => StatusCode::BAD_REQUEST,
            HttpStatus::NotFound => StatusCode::NOT_FOUND,
            HttpStatus::NotAllowed => StatusCode::METHOD_NOT_ALLOWED,
            HttpStatus::Conflict => StatusCode::CONFLICT,
            HttpStatus::LengthRequired => StatusCode::LENGTH_REQUIRED,
            HttpStatus::TooLarge => StatusCode::PAYLOAD_TOO_LARGE,
            HttpStatus::Unprocessable => StatusCode::UNPROCESSABLE_ENTITY,
            HttpStatus::HeadTooLarge => StatusCode::REQUEST_HEADER_FIELDS_TOO_LARGE,
            HttpStatus::Unavailable => StatusCode::SERVICE_UNAVAILABLE,
        }
    }
}
