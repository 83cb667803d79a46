//! Decimals, days, names, single payments, enclosures, lines of confirmations and the objects of a desk in
//! memory, against values that were computed outside. Nothing of it is in the program.
#![tactic(auto)]

#[cfg(test)]
mod days;
#[cfg(test)]
mod decimals;
#[cfg(test)]
mod enclosures;
#[cfg(test)]
mod lines;
#[cfg(test)]
mod names;
#[cfg(test)]
mod objects;
#[cfg(test)]
mod samples;
#[cfg(test)]
mod singles;
#[cfg(test)]
mod streams;
