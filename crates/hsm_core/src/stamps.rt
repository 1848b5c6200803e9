//! Stamps: of each file, the number of the last entry that completed a read, a write or a truncate of it. A file that is gone keeps its stamp, since no
//! key comes a second time.
ghost use Rattle.std.specs.Prelude.{◌≡◌, ◌<◌, true, None, IsSome, OnOk};
ghost use Rattle.indexmap.specs.IndexMap.{spare};
ghost use Rattle.plain_model.specs.Accesses.{is_access};
ghost use Rattle.plain_model.specs.Verdict.{stamped, stamps_by};
ghost use Rattle.hsm_core.specs.Stamps.{stamp_in};
ghost use Rattle.hsm_core.specs.Targets.{key_in};

use crate::judging::Target;
use hsm_types::{Call, FileKey};
use indexmap::IndexMap;
use std::alloc::AllocError;

/// Makes room for one more stamp.
pub(crate) fn make_room(stamps: &mut IndexMap<FileKey, u64>) -> Result<(), AllocError>
    ensures same { stamps.new.entries ≡ stamps.old.entries }
    ensures room { OnOk result (0 < spare stamps.new) }
{
    stamps.reserve(1)
}

/// The stamp of the file with that key, 0 where it has none.
pub(crate) fn stamp(stamps: &IndexMap<FileKey, u64>, key: FileKey) -> u64
    ensures { result ≡ stamp_in stamps.now.entries key }
{
    match stamps.get(&key) {
        Some(number) => *number,
        None => 0,
    }
}

/// Renews the stamp of the file on which the call was done, if the call is an access.
pub(crate) fn note_access(
    stamps: &mut IndexMap<FileKey, u64>,
    target: Option<Target>,
    call: &Call,
    number: u64,
)
    requires room { 0 < spare stamps.old }
    requires file { is_access call.now ≡ true → IsSome target }
    ensures { stamp_in stamps.new.entries ≡ stamps_by number (key_in target) call.now None (stamp_in stamps.old.entries) }
{
    if is_access(call) {
        renew(stamps, target.unwrap().key, number);
    }
}

/// Gives the file with that key this stamp.
fn renew(stamps: &mut IndexMap<FileKey, u64>, key: FileKey, number: u64)
    requires { 0 < spare stamps.old }
    ensures { stamp_in stamps.new.entries ≡ stamped key number (stamp_in stamps.old.entries) }
{
    let _before = stamps.insert(key, number).unwrap();
}

/// Whether the call is an access: a read, a write or a truncate.
fn is_access(call: &Call) -> bool
    ensures { result ≡ is_access call.now }
{
    matches!(
        call,
        Call::Read { .. } | Call::Write { .. } | Call::Truncate { .. }
    )
}
