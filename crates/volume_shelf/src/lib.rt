//! Copies of segments on the volumes of drives: how one is made, and how it is fetched. Each is known by the fingerprint of its payload, which is compared
//! with what the medium gives.
#![tactic(auto)]

mod copying;
mod fetching;
mod prints;
mod reading;

pub use copying::copy;
pub use fetching::fetch;
