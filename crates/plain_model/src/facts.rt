//! What a store knows of an access, by which the rules on waiting decide.

/// What a store knows of an access.
#[derive(Clone, Copy, PartialEq, Eq)]
pub struct Facts {
    /// Its file lives.
    pub live: bool,
    /// What it reaches touches a region with its flag.
    pub touches: bool,
    /// It needs a segment whose bytes are away.
    pub needs: bool,
    /// It needs more blocks than are free.
    pub short: Option<NoRoom>,
}

/// How many blocks an access needs, and how many are free, which are fewer.
#[derive(Clone, Copy, PartialEq, Eq)]
pub struct NoRoom {
    pub need: u64,
    pub free: u64,
}
