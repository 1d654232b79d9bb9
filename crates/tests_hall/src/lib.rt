//! Tests of two copies, a clerk and desks, and of the stations at these desks; and of a hall whose changes are kept in groups.
#![tactic(auto)]

#[cfg(test)]
mod asks;
#[cfg(test)]
mod calls;
#[cfg(test)]
mod clerks;
#[cfg(test)]
mod desks;
#[cfg(test)]
mod groups;
#[cfg(test)]
mod halls;
#[cfg(test)]
mod journals;
#[cfg(test)]
mod kept;
#[cfg(test)]
mod opened;
#[cfg(test)]
mod pending;
#[cfg(test)]
mod pipelines;
#[cfg(test)]
mod puts;
#[cfg(test)]
mod stations;
#[cfg(test)]
mod strangers;
#[cfg(test)]
mod taken_back;
#[cfg(test)]
mod workers;
