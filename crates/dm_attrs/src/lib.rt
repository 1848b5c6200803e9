//! The attributes that sessions keep with one file.
#![tactic(auto)]

mod attrs;

pub use attrs::DmAttrs;
