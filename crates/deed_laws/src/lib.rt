//! Laws over all deeds that are served: what a store and its daemons know of each other behind each of them.
#![tactic(auto)]

mod laws;

pub use laws::{
    all_passed, begins_right, is_caused, keeps_all, loses_no_answer, makes_anew, takes_over,
    tells_one,
};
