//! A request of the desk from the bytes of an HTTP connection, and the answer to it.
#![tactic(auto)]

mod answer;
mod head;
pub mod laws;
mod length;
mod list;
mod request;
mod router;
mod routes;
mod status;
mod taking;

pub use answer::{success, write_bad, write_reply, write_success, write_unavailable};
pub use request::read_request;
pub use router::Routes;
pub use status::HttpStatus;
