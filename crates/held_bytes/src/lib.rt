//! What a store holds of its bodies, as values that only clauses read. They take no memory, and no call reads or copies a byte.
//!
//! A caller names the value that a new one has in its own proof, from the arguments of its call: `from_clause` and the calls beside it make the value of it.
#![tactic(auto)]

mod bodies;
mod bytes;

pub use bodies::AllHeldBytes;
pub use bytes::HeldBytes;
