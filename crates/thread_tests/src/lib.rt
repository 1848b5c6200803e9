//! Tests of stores that threads share. They stand apart from the crates that they try, since a crate with tests is proved twice.
#![tactic(auto)]

#[cfg(test)]
mod passing;
#[cfg(test)]
mod recalling;
#[cfg(test)]
mod running;
#[cfg(test)]
mod sharing;
#[cfg(test)]
mod stores;
