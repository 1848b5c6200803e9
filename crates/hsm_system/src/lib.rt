//! A store with its two daemons: what stands under one lock. A daemon is asked for its act here, and told here what came of it; a copy or a fetch is made
//! elsewhere. Each call says which deeds were done.
#![tactic(auto)]

mod awaited;
mod daemons;
mod events;
mod laws;
mod machines;
mod stops;
mod system;

pub use awaited::Outcome;
pub use events::Event;
pub use laws::{goes_on, holds_on};
pub use stops::Stop;
pub use system::System;
