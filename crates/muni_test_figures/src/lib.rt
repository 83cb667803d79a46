//! Payments, prices, yields, the lowest over a schedule, how prices move and readings of figures that another firm
//! printed, against values that were computed outside. Nothing of it is in the program.
#![tactic(auto)]

#[cfg(test)]
mod prices;
#[cfg(test)]
mod readings;
#[cfg(test)]
mod schedules;
#[cfg(test)]
mod sensitivities;
#[cfg(test)]
mod terms;
#[cfg(test)]
mod yields;
