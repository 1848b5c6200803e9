//! A new store and new drives, in memory.
ghost use Rattle.std.specs.Prelude.{◌≡◌, length, IfOk, IfErr};
ghost use Rattle.media_model.specs.contracts.sure.SureDriveDrive.TheImpl as sure;
ghost use Rattle.plain_model.specs.State.{nothing_held};
ghost use Rattle.hsm_policy.specs.Settings.{standard};
ghost use Rattle.file_store.specs.Stores.{superblock_of};
ghost use Rattle.hosts.specs.Hosts.{AreHanded};
ghost use Rattle.hsm_cli.specs.Deeds.{without_objects};
ghost use Rattle.hsm_cli.specs.Openings.{replay_store};
ghost use Rattle.hsm_cli.specs.Runs.{IsOpenedAnew};

use crate::causes::Cause;
use command_words::StoreSize;
use commit_slots::Layout;
use disk_model::SureDisk;
use file_store::{formatted_is_empty, one_recovery};
use hsm_core::Hsm;
use hsm_policy::Settings;
use media_model::{SureDrive, sure_drives};
use std::alloc::{AllocError, Global};

/// The file system id of a store in memory.
const FSID: u64 = 1;

/// A small store in memory, formatted and opened.
pub(crate) fn new_store(alloc: Global) -> Result<Hsm<SureDisk>, AllocError>
    ensures anew { IfOk result (λ s. IsOpenedAnew s) }
    ensures empty { IfOk result (λ s. (superblock_of s.opened ≡ replay_store) × (s.opened.held ≡ nothing_held) × (s.opened.meta.number ≡ 0)) }
{
    formatted_is_empty();
    one_recovery();
    let whole = Layout::of_geometry(StoreSize::Small.geometry()).whole;
    let mut disk = SureDisk::new(vec![in alloc; 0; whole as usize]?);
    let Ok(()) = Hsm::format(&mut disk, StoreSize::Small.geometry(), FSID) else {
        unreachable!()
    };
    match Hsm::open(alloc, disk) {
        Ok(hsm) => Ok(hsm),
        // A disk that never fails was just formatted, so this is want of memory.
        Err(_) => Err(AllocError),
    }
}

/// Drives in memory over new volumes, as the default settings have them.
pub(crate) fn new_drives(alloc: Global) -> Result<Vec<SureDrive>, Cause>
    ensures count { IfOk result (λ ds. length ds.items ≡ standard.drives) }
    ensures handed { IfOk result (λ ds. AreHanded sure.ghosts without_objects standard.drives standard.volumes standard.capacity ds.items) }
    ensures why { IfErr result (λ why. why ≡ Cause.NoMemory) }
{
    let settings = Settings::default();
    match sure_drives(
        alloc,
        settings.drives(),
        settings.volumes(),
        settings.capacity(),
    ) {
        Ok(drives) => Ok(drives),
        Err(AllocError) => Err(Cause::NoMemory),
    }
}
