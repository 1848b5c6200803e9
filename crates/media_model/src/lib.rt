//! A drive as the layers above it see it: volumes, each a list of objects to which one is appended and none is changed, and a count of faults.
//! And two drives in memory.
#![tactic(auto)]

mod drive;
mod memory;
mod sharing;
mod sure;
mod volume;

pub use drive::{Drive, DriveRefusal, LONGEST_OBJECT};
pub use memory::{Damage, FailingCall, MemDrive};
pub use sharing::{have_room, have_volumes, mem_drives, share_only, sure_drives, volumes_of};
pub use sure::SureDrive;
pub use volume::ObjectBytes;
