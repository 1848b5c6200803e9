//! Tests of objects of volumes, of drives in memory and in folders, and of sources and sinks in memory.
#![tactic(auto)]

#[cfg(test)]
mod folders;
#[cfg(test)]
mod objects;
#[cfg(test)]
mod shelf;
#[cfg(test)]
mod streams;
