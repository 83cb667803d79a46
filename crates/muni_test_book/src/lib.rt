//! Keepers, the book, connections, positions and journals in memory, those that fail among them, by what was
//! worked by hand, and a port of this machine. Nothing of it is in the program.
#![tactic(auto)]

#[cfg(test)]
mod answers;
#[cfg(test)]
mod book;
#[cfg(test)]
mod connections;
#[cfg(test)]
mod desks;
#[cfg(test)]
mod journals;
#[cfg(test)]
mod keepers;
#[cfg(test)]
mod positions;
