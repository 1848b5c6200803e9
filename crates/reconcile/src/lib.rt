//! What drives have of the copies that a table's stub entries name: which of their objects are live, and which entries are held.
#![tactic(auto)]

mod counting;
mod entries;
mod looking;
mod objects;
mod refusals;
mod walking;

pub use counting::classes;
pub use refusals::ReconcileRefusal;
