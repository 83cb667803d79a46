//! The book of the desk: what each command is answered and keeps, and what is shown beside figures.
#![tactic(auto)]

mod book;
mod each;
mod fault;
pub mod laws;
mod outside;
mod risks;
mod shown;
mod steps;

pub use book::Book;
pub use each::each_redemption;
pub use fault::BookFault;
pub use muni_answer::figures;
pub use muni_sched::{Calculator, Workers};
pub use outside::apply;
pub use risks::risk;
pub use shown::details;
pub use steps::step;
