//! Tests of the service of a connection that no exchange can show: short reads and writes, faults of either at each place, requests that
//! run out of memory, a reader without an end, and calls that no connection makes.
#![tactic(auto)]

#[cfg(test)]
mod calls;
#[cfg(test)]
mod cuts;
#[cfg(test)]
mod endless;
#[cfg(test)]
mod fails;
#[cfg(test)]
mod opened;
#[cfg(test)]
mod refusals;
#[cfg(test)]
mod serving;
#[cfg(test)]
mod streams;
#[cfg(test)]
mod texts;
