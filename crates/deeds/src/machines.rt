//! The machines of daemons.
ghost use Rattle.deeds.specs.Lives.{Workings};

/// A machine of a daemon, as laws see it: any one, by how it works.
pub trait Machine {
    /// How it works.
    ghost workings: { Workings Self };
}
