//! What is kept of one file beside its bytes, what a record changes of it, and the bytes of a snapshot.
#![tactic(auto)]

mod extents;
mod fields;
mod file_parts;
mod file_places;
mod geometry;
mod kept;
mod kept_stubs;
mod read_parts;
mod reading;
mod refusal;
mod snapshot;
mod writing;

pub use extents::{are_extents, claim};
pub use file_parts::{FileParts, Others};
pub use file_places::{FilePlaces, count_present, segment_places};
pub use geometry::geometry_of;
pub use read_parts::parts_of;
pub use reading::read;
pub use refusal::MetaRefusal;
pub use snapshot::{Mapping, RawFile, RawSnapshot, ReadRefusal};
pub use writing::{put_file, put_header};
