//! Histories in which each entry is marked with the daemon that made it: when they are those of a script's lines, what they tell the daemons, which calls
//! these may make by that, and laws that hold of all such histories.
#![tactic(auto)]

mod laws;

pub use laws::{
    punch_frees, request_is_granted, served_holds_granted, served_keeps_all, settled_none_waits,
    settled_waits,
};
