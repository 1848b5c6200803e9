//! What refusals say.

use crate::media::Fault;
use std::fmt;

/// What a refusal says.
#[derive(Drop)]
pub(crate) enum Told {
    Words(&'static str),
    /// A number between words.
    Number(&'static str, u64, &'static str),
    /// More blocks are needed than are free.
    Blocks { need: u64, free: u64 },
    /// A fault of a medium after words.
    Fault(&'static str, Fault),
}

impl fmt::Display for Told {
    fn fmt<W: fmt::Write>(&self, f: &mut fmt::Formatter<W>) -> fmt::Result {
        match self {
            Told::Words(words) => f.write_str(words),
            Told::Number(before, number, after) => write!(f, "{before}{number}{after}"),
            Told::Blocks { need, free } => {
                write!(f, "{need} blocks are needed, and {free} are free")
            }
            Told::Fault(before, fault) => write!(f, "{before}{fault}"),
        }
    }
}
