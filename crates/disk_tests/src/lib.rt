//! Tests of disks in memory, and of journals on them.
#![tactic(auto)]

#[cfg(test)]
mod disks;
#[cfg(test)]
mod journals;
