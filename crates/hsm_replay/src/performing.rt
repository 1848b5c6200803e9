//! The acts of daemons, performed: a session's call on the store, a copy or a fetch on the drive of its volume.
ghost use Rattle.std.specs.Prelude.{◌≡◌, ◌≢◌, ◌<◌, ◌≤◌, ◌%◌, length, Ok, Err, IfOk, IfErr, OnOk, MatchResult};
ghost use Rattle.hsm_types.specs.Daemons.{MayPerform};
ghost use Rattle.hsm_types.specs.Limits.{segment_bytes};
ghost use Rattle.hsm_types.specs.declared.daemons.Heard.TheVariants.{Nothing};
ghost use Rattle.hsm_types.specs.declared.media.CopyRefusal.TheVariants as copying;
ghost use Rattle.hsm_types.specs.declared.media.FetchRefusal.TheVariants as fetching;
ghost use Rattle.hsm_system.specs.Awaiting.{IsSo, awaited_by, awaited_of, heard_of};
ghost use Rattle.hsm_system.specs.Systems.{Awaits, IsAwaited, Waits, hearing};
ghost use Rattle.hsm_system.specs.declared.awaited.Outcome.{Outcome as Came};
ghost use Rattle.hsm_replay.specs.Acts.{ComesOfCopy, ComesOfFetch, CopiesTo, FetchesFrom, Performs, Stops};

use disk_model::Disk;
use hsm_system::{Outcome, Stop, System};
use hsm_types::{Act, CopyRefusal, Daemon, FetchRefusal, Fingerprint, Handle, StubEntry, Verified};
use media_model::Drive;
use std::alloc::Global;
use volume_shelf::{copy, fetch};

/// Performs the act that the daemon has given: a session's call as one event, and a copy or a fetch on the drive of its volume, of which there are so many.
/// A copy or a fetch is no event. The daemon hears what came of its act. What a copy or a fetch is refused for is heard, unless that is want of memory.
/// After an error it hears `Heard::Nothing`.
pub(crate) fn perform<D: Disk, M: Drive>(
    alloc: Global,
    system: &mut System<D>,
    drives: &mut Vec<M>,
    count: u32,
    daemon: Daemon,
    act: Act,
) -> Result<(), Stop>
    requires awaits { Awaits daemon act system.old }
    requires ready { (came : Came) → awaited_by came ≡ awaited_of act → IsAwaited daemon came system.old }
    requires may { MayPerform act }
    requires all { count ≡ length drives.old.items }
    requires some { 1 ≤ count }
    ensures performed { OnOk result (Performs D.Disk M.Drive daemon (record { system = system.old; drives = drives.old.items }) act (record { system = system.new; drives = drives.new.items })) }
    ensures stopped { IfErr result (λ why. Stops D.Disk M.Drive daemon (record { system = system.old; drives = drives.old.items }) act why (record { system = system.new; drives = drives.new.items })) }
{
    match act {
        Act::Dm(sid, call) => system.call(alloc, daemon, sid, call),
        Act::Copy {
            volume,
            handle,
            segment,
            bytes,
        } => {
            let number = drive_of(volume, count);
            let drive = &mut drives[number];
            let made = copy_on(alloc, drive, volume, &handle, segment, &bytes);
            hand_in(system, daemon, made)
        }
        Act::Fetch { entry } => {
            let place = drive_of(entry.place().volume, count);
            let shelf = &mut drives[place];
            let got = fetch_on(alloc, shelf, &entry);
            hand_in(system, daemon, got)
        }
        Act::Idle => hand_in(system, daemon, Ok(Outcome::Rested)),
    }
}

/// The number of the drive that has the volume, of so many.
fn drive_of(volume: u32, count: u32) -> usize
    requires { 1 ≤ count }
    ensures number { result ≡ volume % count }
    ensures there { result < count }
{
    (volume % count) as usize
}

/// Copies the bytes to the volume, on its drive. Want of memory is no outcome.
fn copy_on<M: Drive>(
    alloc: Global,
    drive: &mut M,
    volume: u32,
    handle: &Handle,
    segment: u32,
    bytes: &Verified,
) -> Result<Outcome, Stop>
    requires some { 1 ≤ length bytes.now }
    requires most { length bytes.now ≤ segment_bytes }
    ensures copied { IfOk result (λ came. ComesOfCopy M.Drive volume handle.now segment bytes.now came drive.old drive.new) }
    ensures stopped { IfErr result (λ why. (why ≡ Stop.Memory) × CopiesTo M.Drive volume handle.now segment bytes.now (Err copying.Memory) drive.old drive.new) }
{
    let answer = copy(alloc, drive, volume, handle, segment, bytes);
    copied(volume, *handle, segment, bytes.fingerprint(), answer)
}

/// What came of a copy of that segment, with bytes of that fingerprint.
fn copied(
    volume: u32,
    handle: Handle,
    segment: u32,
    print: Fingerprint,
    answer: Result<StubEntry, CopyRefusal>,
) -> Result<Outcome, Stop>
    ensures copied { IfOk result (λ came. (came ≡ Outcome.Copied volume handle segment print answer) × (answer ≢ Err CopyRefusal.Memory)) }
    ensures stopped { IfErr result (λ why. (why ≡ Stop.Memory) × (answer ≡ Err CopyRefusal.Memory)) }
{
    match answer {
        Err(CopyRefusal::Memory) => Err(Stop::Memory),
        _ => Ok(Outcome::Copied {
            volume,
            handle,
            segment,
            print,
            answer,
        }),
    }
}

/// Fetches the bytes that the entry stands for, from the drive of its volume. Want of memory is no outcome.
fn fetch_on<M: Drive>(alloc: Global, drive: &mut M, entry: &StubEntry) -> Result<Outcome, Stop>
    ensures fetched { IfOk result (λ came. ComesOfFetch M.Drive entry.now came drive.old drive.new) }
    ensures stopped { IfErr result (λ why. (why ≡ Stop.Memory) × FetchesFrom M.Drive entry.now (Err fetching.Memory) drive.old drive.new) }
{
    fetched(*entry, fetch(alloc, drive, entry))
}

/// What came of a fetch by that entry.
fn fetched(entry: StubEntry, answer: Result<Verified, FetchRefusal>) -> Result<Outcome, Stop>
    ensures fetched { IfOk result (λ came. (came ≡ Outcome.Fetched entry answer) × (answer ≢ Err FetchRefusal.Memory)) }
    ensures stopped { IfErr result (λ why. (why ≡ Stop.Memory) × (answer ≡ Err FetchRefusal.Memory)) }
{
    match answer {
        Err(FetchRefusal::Memory) => Err(Stop::Memory),
        _ => Ok(Outcome::Fetched { entry, answer }),
    }
}

/// Tells the daemon what came of its act, or that nothing will.
fn hand_in<D: Disk>(
    system: &mut System<D>,
    daemon: Daemon,
    made: Result<Outcome, Stop>,
) -> Result<(), Stop>
    requires so { IfOk made IsSo }
    requires awaited { IfOk made (λ came. IsAwaited daemon came system.old) }
    requires waits { Waits daemon system.old }
    ensures { MatchResult made (λ came. (result ≡ Ok tt) × (system.new ≡ hearing daemon (heard_of came) system.old)) (λ why. (result ≡ Err why) × (system.new ≡ hearing daemon Nothing system.old)) }
{
    match made {
        Ok(outcome) => {
            system.take_in(daemon, outcome);
            Ok(())
        }
        Err(why) => {
            system.lose(daemon);
            Err(why)
        }
    }
}
