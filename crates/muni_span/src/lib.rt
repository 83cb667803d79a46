//! Enclosures: pairs of whole ends that an exact value lies between, each end rounded outward.
#![tactic(auto)]

mod outside;
pub mod root;
mod rounding;
pub mod span;
pub mod worth;
