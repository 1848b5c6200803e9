//! How much of the store is used.
ghost use Rattle.std.specs.Prelude.{◌≡◌, ◌<◌, ◌≤◌};
ghost use Rattle.migrate_daemon.specs.Shares.{share, is_above};

/// How many blocks are used, and how many there are.
#[derive(Clone, Copy, PartialEq, Eq)]
pub(crate) struct Space {
    pub(crate) used: u64,
    pub(crate) total: u64,
}

/// So many percent of the blocks, rounded down.
pub(crate) fn share(percent: u64, total: u64) -> u64
    requires { percent ≤ 100 }
    ensures { result ≡ share percent total }
{
    let hundredfold = u128::from(total) * u128::from(percent);
    (hundredfold / 100) as u64
}

/// Whether more than so many percent of the blocks are used.
pub(crate) fn is_above(high: u64, space: Option<Space>) -> bool
    requires { high ≤ 100 }
    ensures { result ≡ is_above high space }
{
    match space {
        Some(space) => share(high, space.total) < space.used,
        None => false,
    }
}
