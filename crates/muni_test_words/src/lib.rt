//! The words of quotes, in which `clap` finds the options and values that the desk reads. Nothing of it is in the
//! program.
#![tactic(auto)]

#[cfg(test)]
mod quotes;
