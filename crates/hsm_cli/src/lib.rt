//! The top call of the program.
#![tactic(auto)]

mod causes;
mod drilling;
mod in_memory;
mod outcomes;
mod runs;
mod scripts;
mod showing;
mod streams;
mod top;

pub use causes::Cause;
pub use outcomes::Outcome;
pub use top::hsm_main;
