//! The settings of a run, each in its range.
ghost use Rattle.std.specs.Prelude.{◌≡◌};
ghost use Rattle.hsm_policy.specs.Settings.{standard, AreSettings};

use std::marker::Model;

// What holds where a text says nothing.
pub(crate) const DRIVES: u32 = 2;

pub(crate) const VOLUMES: u32 = 8;

pub(crate) const CAPACITY: u64 = 67_108_864;

pub(crate) const HIGH: u64 = 80;

pub(crate) const LOW: u64 = 60;

pub(crate) const WORKERS: u32 = 2;

// The ranges.

/// How many drives there may be.
pub(crate) const MOST_DRIVES: u64 = 8;

/// How many threads may work them.
pub(crate) const MOST_WORKERS: u64 = 8;

/// The least bytes that a volume may have room for.
pub(crate) const LEAST_CAPACITY: u64 = 1_048_576;

/// The most bytes that a volume may have room for.
pub(crate) const MOST_CAPACITY: u64 = 1_073_741_824;

/// The greatest percentage above which a pass may start.
pub(crate) const MOST_HIGH: u64 = 95;

/// The greatest percentage down to which it may go.
pub(crate) const MOST_LOW: u64 = 94;

/// The settings of a run. Contracts see the six numbers.
#[derive(Clone, Copy, PartialEq, Eq)]
pub struct Settings {
    pub(crate) drives: u32,
    pub(crate) volumes: u32,
    pub(crate) capacity: u64,
    pub(crate) high: u64,
    pub(crate) low: u64,
    pub(crate) workers: u32,
}

impl Model for Settings {
    ghost use Rattle.hsm_policy.specs.Settings.{Numbers, AreSettings};

    ghost Value = { Numbers };

    ghost view = { λ s. record { drives = s.drives; volumes = s.volumes; capacity = s.capacity; high = s.high; low = s.low; workers = s.workers } };

    ghost invariant = { λ s. AreSettings (record { drives = s.drives; volumes = s.volumes; capacity = s.capacity; high = s.high; low = s.low; workers = s.workers }) };

    ghost inverse = { λ n. record { drives = n.drives; volumes = n.volumes; capacity = n.capacity; high = n.high; low = n.low; workers = n.workers } };
}

impl Default for Settings {
    ghost is_default = { λ s. s ≡ standard };

    /// What holds where a text says nothing.
    fn default() -> Settings {
        Settings {
            drives: DRIVES,
            volumes: VOLUMES,
            capacity: CAPACITY,
            high: HIGH,
            low: LOW,
            workers: WORKERS,
        }
    }
}

impl Settings {
    /// How many drives there are.
    pub fn drives(&self) -> u32
        ensures drives { result ≡ self.now.drives }
        ensures within { AreSettings self.now }
    {
        self.drives
    }

    /// How many volumes there are. They are numbered from 0.
    pub fn volumes(&self) -> u32
        ensures volumes { result ≡ self.now.volumes }
        ensures within { AreSettings self.now }
    {
        self.volumes
    }

    /// How many bytes a volume has room for.
    pub fn capacity(&self) -> u64
        ensures capacity { result ≡ self.now.capacity }
        ensures within { AreSettings self.now }
    {
        self.capacity
    }

    /// Above how many percent of the blocks a pass of migration starts.
    pub fn high(&self) -> u64
        ensures high { result ≡ self.now.high }
        ensures within { AreSettings self.now }
    {
        self.high
    }

    /// Down to how many percent of the blocks it goes.
    pub fn low(&self) -> u64
        ensures low { result ≡ self.now.low }
        ensures within { AreSettings self.now }
    {
        self.low
    }

    /// How many threads read and write volumes.
    pub fn workers(&self) -> u32
        ensures workers { result ≡ self.now.workers }
        ensures within { AreSettings self.now }
    {
        self.workers
    }
}
