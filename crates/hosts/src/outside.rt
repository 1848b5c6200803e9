//! Where disks and drives come from: the outside, which hands them out by name.
ghost use Rattle.std.specs.Prelude.{◌≡◌, ◌≤◌, ℕ, List, replicate, IfOk, OnOk, OnErr};
ghost use Rattle.disk_model.specs.Images.{Within};
ghost use Rattle.disk_model.specs.Calls.{raised};
ghost use Rattle.media_model.specs.Objects.{Objects};
ghost use Rattle.hosts.specs.Hosts.{HoldsNothing, HoldsOthers, HoldsAll, StoresNothing, StoresOthers, StoresAll, AreHanded, HasHostCause};

use disk_model::Disk;
use media_model::Drive;
use thiserror::Error;

/// Why a disk or drives weren't handed out: the host failed and its count of faults rose by one, or memory ran out.
#[derive(Clone, Copy, Debug, PartialEq, Eq, Error)]
pub enum HostRefusal {
    #[error("host fault")]
    Failed,
    #[error("no memory")]
    Memory,
}

/// A host of disks and of folders of volumes, which it has by name and hands out by value. A disk or a drive that it hands out has counted no fault,
/// and nothing of a disk waits for a sync: a crash leaves what a read gives. A host that doesn't tell what its names hold has no image in `holds` and no
/// objects in `stores`, and then the clauses on these say nothing.
pub trait Host {
    type Disk: Disk + Drop + Send;

    type Drive: Drive + Drop + Send;

    /// Whether the host has a disk of this name, as bytes, with this image.
    ghost holds: { Self → List ℕ → List ℕ → Type 0 };

    /// Whether the folder of this name, as bytes, has in the volume of this number these objects. One that isn't there has none in any.
    ghost stores: { Self → List ℕ → ℕ → Objects → Type 0 };

    /// How often the host has failed. A call that isn't answered `Failed` leaves the count as it was. The count stops at the greatest u64.
    ghost fault_count: { Self → ℕ };

    /// How often it was asked to make a disk, as far as a u64 counts.
    ghost make_count: { Self → ℕ };

    /// How often it was asked for a disk that is there.
    ghost open_count: { Self → ℕ };

    /// How often it was asked for drives.
    ghost drive_count: { Self → ℕ };

    /// How often a call has failed.
    fn faults(&self) -> u64
        ensures { result ≡ fault_count self.now };

    /// A disk of so many bytes, all of them 0, in place of what the name held.
    fn make(&mut self, path: &str, len: u64) -> Result<Self::Disk, HostRefusal>
        ensures length { IfOk result (λ d. Self.Disk.length_of d ≡ len) }
        ensures zeros { IfOk result (λ d. (c : List ℕ) → Self.Disk.gives d c → c ≡ replicate len 0) }
        ensures settled { IfOk result (λ d. Within (Self.Disk.gives d) (Self.Disk.may_leave d)) }
        ensures counted { IfOk result (λ d. Self.Disk.fault_count d ≡ 0) }
        ensures gone { OnOk result (HoldsNothing (holds self.new path.now)) }
        ensures others { HoldsOthers path.now (holds self.old) (holds self.new) }
        ensures refused { OnErr result (HoldsAll (holds self.old) (holds self.new)) }
        ensures made { make_count self.new ≡ raised (make_count self.old) }
        ensures unopened { open_count self.new ≡ open_count self.old }
        ensures undriven { drive_count self.new ≡ drive_count self.old }
        ensures folders { StoresAll (stores self.old) (stores self.new) }
        ensures cause { HasHostCause result (fault_count self.old) (fault_count self.new) };

    /// The disk of that name, or `Failed` where there is none. The host has it no more until it is put back.
    fn disk(&mut self, path: &str) -> Result<Self::Disk, HostRefusal>
        ensures given { IfOk result (λ d. (c : List ℕ) → holds self.old path.now c → Self.Disk.gives d c) }
        ensures settled { IfOk result (λ d. Within (Self.Disk.gives d) (Self.Disk.may_leave d)) }
        ensures counted { IfOk result (λ d. Self.Disk.fault_count d ≡ 0) }
        ensures gone { OnOk result (HoldsNothing (holds self.new path.now)) }
        ensures others { HoldsOthers path.now (holds self.old) (holds self.new) }
        ensures refused { OnErr result (HoldsAll (holds self.old) (holds self.new)) }
        ensures opened { open_count self.new ≡ raised (open_count self.old) }
        ensures unmade { make_count self.new ≡ make_count self.old }
        ensures undriven { drive_count self.new ≡ drive_count self.old }
        ensures folders { StoresAll (stores self.old) (stores self.new) }
        ensures cause { HasHostCause result (fault_count self.old) (fault_count self.new) };

    /// So many drives over the volumes of that folder, those below `volumes` and no others: volume v is in the drive v mod `drives`, and may have so many
    /// bytes. The host has them no more until they are put back.
    fn drives(
        &mut self,
        dir: &str,
        drives: u32,
        volumes: u32,
        capacity: u64,
    ) -> Result<Vec<Self::Drive>, HostRefusal>
        ensures given { IfOk result (λ ds. AreHanded Self.Drive.Drive (stores self.old dir.now) drives volumes capacity ds.items) }
        ensures gone { OnOk result (StoresNothing (stores self.new dir.now)) }
        ensures others { StoresOthers dir.now (stores self.old) (stores self.new) }
        ensures refused { OnErr result (StoresAll (stores self.old) (stores self.new)) }
        ensures disks { HoldsAll (holds self.old) (holds self.new) }
        ensures asked { drive_count self.new ≡ raised (drive_count self.old) }
        ensures unmade { make_count self.new ≡ make_count self.old }
        ensures unopened { open_count self.new ≡ open_count self.old }
        ensures cause { HasHostCause result (fault_count self.old) (fault_count self.new) };
}

// Counts a fault of a host.
pub(crate) fn fault(faults: &mut u64) -> HostRefusal
    ensures failed { result ≡ HostRefusal.Failed }
    ensures raised { faults.new ≡ raised faults.old }
    ensures never_falls { faults.old ≤ faults.new }
{
    *faults = faults.saturating_add(1);
    HostRefusal::Failed
}
