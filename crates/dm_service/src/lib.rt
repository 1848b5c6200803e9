//! The service of sessions: their calls on dispositions, messages and tokens, what tokens hold, the events of accesses, and the accesses that wait.
#![tactic(auto)]

mod calls;
mod judging;
mod messages;
mod parking;
mod replies;
mod rights;
mod scope;
mod service;
mod serving;
mod sessions;
mod tokens;
mod verdict;

pub use access_park::Access;
pub use calls::{asks_rights, asks_tables};
pub use judging::kind_of;
pub use plain_model::{Facts, NoRoom};
pub use service::DmService;
pub use verdict::Verdict;
