//! What holds of histories on any disk: that they are legal but for bytes.
#![tactic(auto)]

mod laws;

pub use laws::{good_where_told, own_where_told, seen_is_good, seen_where_told};
