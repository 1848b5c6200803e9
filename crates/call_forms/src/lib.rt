//! The forms of calls, as scripts and transcripts have them: the verb, and the parts behind it.
#![tactic(auto)]

mod forms;
mod parts;

pub use forms::{
    CALL_PARTS, CallVerb, DmVerb, call_access, call_of, call_parts, call_verb, dm_access,
    dm_call_of, dm_parts, dm_verb,
};
pub use parts::{Part, PartKind, PartRef, Parts};
