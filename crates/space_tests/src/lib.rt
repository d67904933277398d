//! Tests of spaces of terms, of code and the compiler, and of the machine that runs over spaces: each row over the space of terms themselves
//! and over the store, and of a definition file through each public call. They stand in a crate of their own, since a crate with tests is
//! proved once more for them.
#![tactic(auto)]

#[cfg(test)]
mod accounts;
#[cfg(test)]
mod bare_terms;
#[cfg(test)]
mod building;
#[cfg(test)]
mod changing;
#[cfg(test)]
mod compiled;
#[cfg(test)]
mod declared;
#[cfg(test)]
mod going_back;
#[cfg(test)]
mod growth;
#[cfg(test)]
mod refusals;
#[cfg(test)]
mod selecting;
#[cfg(test)]
mod single_calls;
#[cfg(test)]
mod spaces;
#[cfg(test)]
mod taking_apart;
#[cfg(test)]
mod texts;
