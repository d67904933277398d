//! Tests of the program's calls over devices and files in memory: what the built program cannot be made to do at will. They stand in a crate of
//! their own, since a crate with tests is proved once more for them.
#![tactic(auto)]

#[cfg(test)]
mod failures;
#[cfg(test)]
mod forms;
#[cfg(test)]
mod libraries;
#[cfg(test)]
mod primitives;
#[cfg(test)]
mod requests;
#[cfg(test)]
mod samples;
#[cfg(test)]
mod streams;
