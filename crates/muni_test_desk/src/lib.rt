//! The commands of the desk over objects that are watched, wait and fail, and the longest lines of its
//! reports. Nothing of it is in the program.
#![tactic(auto)]

#[cfg(test)]
mod commands;
#[cfg(test)]
mod lines;
