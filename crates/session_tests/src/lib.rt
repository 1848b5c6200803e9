//! Tests of handles, of regions, and of sessions without a store.
#![tactic(auto)]

#[cfg(test)]
mod handles;
#[cfg(test)]
mod regions;
#[cfg(test)]
mod sessions;
