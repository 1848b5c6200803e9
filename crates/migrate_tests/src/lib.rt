//! Tests of settings, of what is picked by them, and of the migration daemon.
#![tactic(auto)]

#[cfg(test)]
mod migrating;
#[cfg(test)]
mod policy;
