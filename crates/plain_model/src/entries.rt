//! Events and their history.
use hsm_types::{Call, CallerId, DmCall, DmReply, ListOf, Reply, Sid};

/// Who makes an event.
#[derive(Clone, Copy, PartialEq, Eq)]
pub enum Actor {
    Caller(CallerId),
    Session(Sid),
    /// The store itself, for a commit.
    Store,
}

/// What an event asks of the store.
#[derive(Drop)]
pub enum Action {
    Issue(Call),
    /// The caller asks for the answer to its access that waits.
    Resume,
    Dm(DmCall),
    Commit,
}

/// What the store answered to an event.
#[derive(Drop)]
pub enum Answer {
    /// To a caller, or to the store itself.
    Call(Reply),
    /// To a session.
    Dm(DmReply),
}

/// An event with its answer.
#[derive(Drop)]
pub struct Entry {
    pub actor: Actor,
    pub action: Action,
    pub answer: Answer,
}

/// The events of a store, in order. Contracts see them as a list.
pub type History = ListOf<Entry>;
