//! A folder of the system as a drive.
#![tactic(auto)]

mod folder;
mod object_files;

pub use folder::FolderDrive;
