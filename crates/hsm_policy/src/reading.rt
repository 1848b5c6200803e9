//! Settings, read from a TOML document.
ghost use Rattle.std.specs.Prelude.{◌≡◌, ◌↔◌, ℕ, pos, IsTrue, IfOk, IfSome, IfNone, codes};
ghost use Rattle.std.specs.List.{list_any};
ghost use Rattle.std.specs.Str.{bytes_eq};
ghost use Rattle.toml.specs.Data.{as_integer};
ghost use Rattle.toml.specs.View.{table_view, view};
ghost use Rattle.hsm_policy.specs.Settings.{Numbers, standard, IsWithin, AreDrives, AreVolumes, AreLimits};
ghost use Rattle.hsm_policy.specs.Documents.{names, Says, HasNamesAlone, SaysSettings, IsTextOf};

use crate::settings::{
    CAPACITY, DRIVES, HIGH, LEAST_CAPACITY, LOW, MOST_CAPACITY, MOST_DRIVES, MOST_HIGH, MOST_LOW,
    MOST_WORKERS, Settings, VOLUMES, WORKERS,
};
use hsm_types::MOST_VOLUMES;
use std::alloc::Global;
use thiserror::Error;
use toml::{Table, Value};

/// Why a text gives no settings.
#[derive(Clone, Copy, Debug, PartialEq, Eq, Error)]
pub enum SettingsRefusal {
    #[error("the text is none of settings")]
    Bad,
    #[error("no memory")]
    Memory,
}

/// The settings that the text says. Only tests call it yet.
pub fn read_settings(alloc: Global, text: &[u8]) -> Result<Settings, SettingsRefusal>
    ensures ok { IfOk result (IsTextOf text.now) }
    ensures bad { result ≡ Err SettingsRefusal.Bad → (s : Numbers) → ¬ IsTextOf text.now s }
{
    let document = match toml::table_from_slice(alloc, text) {
        Ok(document) => document,
        Err(why) if why.is_memory() => return Err(SettingsRefusal::Memory),
        Err(_) => return Err(SettingsRefusal::Bad),
    };
    match said(&document) {
        Some(settings) => Ok(settings),
        None => Err(SettingsRefusal::Bad),
    }
}

/// The settings that the document says.
fn said(document: &Table) -> Option<Settings>
    ensures some { IfSome result (SaysSettings (table_view document.now)) }
    ensures none { IfNone result ((s : Numbers) → ¬ SaysSettings (table_view document.now) s) }
{
    if !has_names_alone(document) {
        return None;
    }
    let (drives, workers) = drives(document)?;
    let (volumes, capacity) = volumes(document)?;
    let (high, low) = limits(document)?;
    Some(Settings {
        drives,
        volumes,
        capacity,
        high,
        low,
        workers,
    })
}

/// How many drives and how many workers the document says.
fn drives(document: &Table) -> Option<(u32, u32)>
    ensures some { IfSome result (λ said. Says (table_view document.now) (codes "drives") standard.drives said.0 × Says (table_view document.now) (codes "workers") standard.workers said.1 × AreDrives said.0 said.1) }
    ensures none { IfNone result ((drives workers : ℕ) → Says (table_view document.now) (codes "drives") standard.drives drives → Says (table_view document.now) (codes "workers") standard.workers workers → ¬ AreDrives drives workers) }
{
    let drives = number_at(document, "drives", DRIVES as u64, 1, MOST_DRIVES)?;
    let workers = number_at(document, "workers", WORKERS as u64, 1, MOST_WORKERS)?;
    Some((drives as u32, workers as u32))
}

/// How many volumes the document says, and the capacity of each.
fn volumes(document: &Table) -> Option<(u32, u64)>
    ensures some { IfSome result (λ said. Says (table_view document.now) (codes "volumes") standard.volumes said.0 × Says (table_view document.now) (codes "capacity") standard.capacity said.1 × AreVolumes said.0 said.1) }
    ensures none { IfNone result ((volumes capacity : ℕ) → Says (table_view document.now) (codes "volumes") standard.volumes volumes → Says (table_view document.now) (codes "capacity") standard.capacity capacity → ¬ AreVolumes volumes capacity) }
{
    let volumes = number_at(document, "volumes", VOLUMES as u64, 1, MOST_VOLUMES as u64)?;
    let capacity = number_at(
        document,
        "capacity",
        CAPACITY,
        LEAST_CAPACITY,
        MOST_CAPACITY,
    )?;
    Some((volumes as u32, capacity))
}

/// The two limits of migration that the document says.
fn limits(document: &Table) -> Option<(u64, u64)>
    ensures some { IfSome result (λ said. Says (table_view document.now) (codes "high") standard.high said.0 × Says (table_view document.now) (codes "low") standard.low said.1 × AreLimits said.0 said.1) }
    ensures none { IfNone result ((high low : ℕ) → Says (table_view document.now) (codes "high") standard.high high → Says (table_view document.now) (codes "low") standard.low low → ¬ AreLimits high low) }
{
    let high = number_at(document, "high", HIGH, 1, MOST_HIGH)?;
    let low = number_at(document, "low", LOW, 0, MOST_LOW)?;
    if high <= low {
        return None;
    }
    Some((high, low))
}

/// Whether each key of the document is the name of a setting.
fn has_names_alone(document: &Table) -> bool
    ensures { IsTrue result ↔ HasNamesAlone (table_view document.now) }
{
    for (key, _) in document.iter() {
        if !is_name(key.as_str()) {
            return false;
        }
    }
    true
}

fn is_name(key: &str) -> bool
    ensures { result ≡ list_any (bytes_eq key.now) names }
{
    key == "drives"
        || key == "volumes"
        || key == "capacity"
        || key == "high"
        || key == "low"
        || key == "workers"
}

/// What is said under that name, where it is one of `first` to `last`.
fn number_at(document: &Table, name: &str, normal: u64, first: u64, last: u64) -> Option<u64>
    ensures some { IfSome result (λ n. Says (table_view document.now) name.now normal n × IsWithin first last n) }
    ensures none { IfNone result ((n : ℕ) → Says (table_view document.now) name.now normal n → ¬ IsWithin first last n) }
{
    let number = said_at(document, name, normal)?;
    if number < first || last < number {
        return None;
    }
    Some(number)
}

/// The whole number under that name, or the normal one where nothing stands there. None where what stands there is none.
fn said_at(document: &Table, name: &str, normal: u64) -> Option<u64>
    ensures some { IfSome result (Says (table_view document.now) name.now normal) }
    ensures none { IfNone result ((n : ℕ) → ¬ Says (table_view document.now) name.now normal n) }
{
    match document.get(name) {
        Some(value) => whole(value),
        None => Some(normal),
    }
}

/// The whole number that a value is, from 0 on.
fn whole(value: &Value) -> Option<u64>
    ensures some { IfSome result (λ n. as_integer (view value.now) ≡ Some (pos n)) }
    ensures none { IfNone result ((n : ℕ) → ¬ (as_integer (view value.now) ≡ Some (pos n))) }
{
    match value.as_integer() {
        Some(number) => u64::try_from(number).ok(),
        None => None,
    }
}
