//! What the desk keeps, as the bytes of a journal: the body of an issue and that of a version, both
//! ways. One value has one body.
#![tactic(auto)]

mod body;
mod fields;
mod issue_body;
pub mod laws;
mod put;
mod version_body;

pub use body::{body_of, put_of, version_of_body};
pub use fields::Body;
pub use put::Put;
