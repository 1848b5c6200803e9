//! What was done with a store and its daemons, as one list of deeds: its history, the lives of daemons as chains of their machines' steps, what is known of
//! them by deeds alone, and laws that hold of all such lists.
#![tactic(auto)]

mod laws;
mod machines;

pub use laws::{
    fault_added, faults_added, faults_apart, given_exactly, leads_on, leads_through,
    moves_are_deeds, none_added, once_answered, served_once, stands_exactly,
};
pub use machines::Machine;
