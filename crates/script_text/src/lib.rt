//! Scripts as bytes and as lines.
#![tactic(auto)]

mod attributes;
mod bodies;
mod daemons;
mod digests;
mod events;
mod handles;
mod kinds;
mod laws;
mod lines;
mod parser;
mod parts;
mod printing;
mod regions;
mod requests;
mod responses;
mod rights;
mod words;

pub use bodies::{PATTERN_BYTES, pattern_bytes};
pub use laws::{one_script, one_script_of, printed_is_read, printed_is_read_of};
pub use lines::{Allowed, Line, LinesLeft, Script};
pub use parser::{LONGEST_SCRIPT, ParseRefusal, parse, parse_allowed};
pub use printing::print;
pub use words::number;
