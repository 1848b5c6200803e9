//! A store may be sent between threads where its disk may: here another thread locks one. It is called by nothing, and fails to be proved where the
//! store can't be sent.
ghost use Rattle.std.specs.Prelude.{◌≡◌, length};
ghost use Rattle.hsm_core.specs.Kept.{IsKept};
ghost use Rattle.hsm_core.specs.Store.{Store};

use crate::store::Hsm;
use disk_model::Disk;
use std::sync::{Mutex, Wait};
use std::thread;
use std::thread::Threads;

/// Counts the entries of the store that is under the lock. Of that store nothing is known but what its history keeps.
fn count<D: Disk + Drop, R: Wait>(rt: &R, locked: &Mutex<Hsm<D>>) -> usize
    ensures { (s : Store D) × IsKept D.Disk s × (result ≡ length s.history) }
{
    locked.lock(rt).history().len()
}

/// Lets another thread count the entries of the store under a lock, and takes the store out again.
fn count_elsewhere<D: Disk + Drop + Send, R: Threads + Wait + Sync>(
    rt: &R,
    hsm: Hsm<D>,
) -> (usize, Hsm<D>)
    ensures { (s : Store D) × IsKept D.Disk s × (result.0 ≡ length s.history) }
{
    let locked = Mutex::new(hsm);
    let shared = &locked;
    let (counted, ()) = thread::join(
        rt,
        || -> usize
            ensures { (s : Store D) × IsKept D.Disk s × (result ≡ length s.history) }
        { count(rt, shared) },
        || (),
    );
    (counted, locked.into_inner())
}
