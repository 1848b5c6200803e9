//! Tests of a cache of blocks and of a map of extents: what they keep, which calls of the disk they make, what is lent, and what is told of a disk that fails.
#![tactic(auto)]

#[cfg(test)]
mod keeping;
#[cfg(test)]
mod lending;
#[cfg(test)]
mod loading;
#[cfg(test)]
mod maps;
#[cfg(test)]
mod segments;
