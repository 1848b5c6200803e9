//! The recall daemon: a machine that hears the answer to what it asked, and gives what it does next.
#![tactic(auto)]

mod away;
mod choosing;
mod hearing;
mod laws;
mod needed;
mod recaller;
mod rounds;
mod serving;
mod telling;
mod worker;

pub use away::Away;
pub use laws::{each_act_nears, goes_no_further, starts_sound, stays_sound, works_where_seated};
pub use recaller::Recaller;
