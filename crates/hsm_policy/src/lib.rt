//! What migration goes by: the settings of a run, and which segments are picked.
#![tactic(auto)]

mod candidates;
mod laws;
mod picking;
mod reading;
mod settings;

pub use laws::{one_pick, one_settings};
pub use picking::{Picked, Picks, pick};
pub use reading::{SettingsRefusal, read_settings};
pub use settings::Settings;
