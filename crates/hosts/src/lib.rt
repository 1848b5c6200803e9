//! The outside: where scripts come from and transcripts go to, and who hands out disks and drives.
#![tactic(auto)]

mod adapters;
mod file_disk;
mod file_host;
mod mem_file;
mod mem_host;
mod memory;
mod outside;
mod positioned;
mod streams;

pub use adapters::{Reading, Writing};
pub use file_disk::FileDisk;
pub use file_host::FileHost;
pub use mem_file::MemFile;
pub use mem_host::MemHost;
pub use memory::{MemorySink, MemorySource};
pub use outside::{Host, HostRefusal};
pub use positioned::PositionedFile;
pub use streams::{Failed, Sink, Source};
