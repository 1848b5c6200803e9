//! The sessions of a store, with their queues and outstanding tokens.
#![tactic(auto)]

mod changes;
mod events;
mod laws;
mod live_session;
mod moving;
mod queue;
mod sessions;
mod tokens;

pub use laws::stands_once;
pub use sessions::Sessions;
