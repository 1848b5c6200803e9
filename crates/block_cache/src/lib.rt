//! The blocks of a disk that were used last, and the parts of a body that they lend.
#![tactic(auto)]

mod asking;
mod cache;
mod laws;
mod lending;
mod loading;
mod parts;
mod refusal;

pub use asking::{are_there, lie_on};
pub use cache::BlockCache;
pub use laws::parts_are_shown;
pub use lending::{digest, put_parts};
pub use loading::LOADED_BLOCKS;
pub use parts::{Part, Parts};
pub use refusal::CacheRefusal;
