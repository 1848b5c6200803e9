//! A drive: which objects its volumes have.
ghost use Rattle.std.specs.Prelude.{◌≡◌, ◌+◌, ◌<◌, ◌≤◌, ℕ, List, Bool, true, Err, [], length, get_or, take, OnOk, IfOk, IsErr, IsErrOf};
ghost use Rattle.media_model.specs.Objects.{Objects, longest_object, size_of, read_from, Adds, AddsOne};
ghost use Rattle.media_model.specs.Objects.{MayAdd, Follows, Alike, HasCause, IsAsked, KeepsVolumes};
ghost use Rattle.media_model.specs.declared.drive.DriveRefusal.TheVariants.{Failed, Full, NoObject, Memory};

use hsm_types::SEGMENT_BYTES;
use std::alloc::AllocError;
use thiserror::Error;

/// The bytes of the longest object: its frame, and the longest segment.
pub const LONGEST_OBJECT: usize = 72 + SEGMENT_BYTES as usize;

/// Why a drive refused a call.
#[derive(Clone, Copy, Debug, PartialEq, Eq, Error)]
pub enum DriveRefusal {
    /// The drive's count of faults rose by one, as it does with no other answer.
    #[error("the drive failed")]
    Failed,
    /// The volume's objects have so many bytes, and with the new one more than it may have.
    #[error("volume full: {used} of {capacity} bytes are used, and the object has {len}")]
    Full { used: u64, len: u64, capacity: u64 },
    #[error("no such volume")]
    NoVolume,
    #[error("no such object")]
    NoObject,
    #[error("no memory")]
    Memory,
}

impl From<AllocError> for DriveRefusal {
    ghost use Rattle.std.specs.Prelude.{◌≡◌};
    ghost use Rattle.media_model.specs.declared.drive.DriveRefusal.TheVariants.{Memory};

    ghost from_gives = { λ e why. why ≡ Memory };

    fn from(_error: AllocError) -> DriveRefusal {
        DriveRefusal::Memory
    }
}

/// Volumes of objects. A volume is a list of objects, which are bytes; they are numbered from 0, one is appended at a time, and none is taken away or
/// changed by a call. A drive that doesn't tell what its volumes have gives no list in `gives`, and then the clauses on objects say nothing. After a
/// failure of the medium an object may have other bytes than were appended; a drive of a sure type has none of that.
pub trait Drive {
    /// Whether the drive has the volume.
    ghost has: { Self → ℕ → Bool };

    /// Whether the volume may have these objects.
    ghost gives: { Self → ℕ → List (List ℕ) → Type 0 };

    /// The objects of the volume, where the drive tells them. Else they are some list.
    ghost content: { Self → ℕ → List (List ℕ) };

    /// How many objects of the volume last, the first ones. The number never falls.
    ghost lasting: { Self → ℕ → ℕ };

    /// How many bytes the objects of each volume may have together.
    ghost capacity_of: { Self → ℕ };

    /// How often a call has failed. A call that isn't answered `Failed` leaves the count as it was. The count stops at the greatest u64.
    ghost fault_count: { Self → ℕ };

    /// Whether no drive of this type fails or damages an object, and each tells its objects.
    ghost sure: { Bool };

    /// How often a call has failed.
    fn faults(&self) -> u64
        ensures { result ≡ fault_count self.now };

    /// Puts an object behind the others of the volume, and tells its number.
    fn append(&mut self, volume: u32, bytes: &[u8]) -> Result<u32, DriveRefusal>
        requires { length bytes.now ≤ longest_object }
        ensures number { IfOk result (λ n. (o : Objects) → gives self.old volume o → n ≡ length o) }
        ensures one_more { OnOk result (Follows AddsOne (gives self.old volume) (gives self.new volume)) }
        ensures exact { sure ≡ true → OnOk result (Follows (Adds bytes.now) (gives self.old volume) (gives self.new volume)) }
        ensures fits { OnOk result ((o : Objects) → gives self.old volume o → size_of o + length bytes.now ≤ capacity_of self.old) }
        ensures failed { IsErrOf result Failed → Follows (MayAdd bytes.now) (gives self.old volume) (gives self.new volume) }
        ensures unchanged { IsErr result → (IsErrOf result Failed → ⊥) → Alike (gives self.old volume) (gives self.new volume) }
        ensures full { (used len capacity : ℕ) → result ≡ Err (Full used len capacity) → (len ≡ length bytes.now) × (capacity ≡ capacity_of self.old) × (capacity < used + len) × ((o : Objects) → gives self.old volume o → used ≡ size_of o) }
        ensures appends { IsErrOf result NoObject → ⊥ }
        ensures others { (v : ℕ) → (v ≡ volume → ⊥) → Alike (gives self.old v) (gives self.new v) }
        ensures volumes { KeepsVolumes (has self.old) (has self.new) (capacity_of self.old) (capacity_of self.new) (lasting self.old) (lasting self.new) }
        ensures cause { HasCause result (has self.old volume) (fault_count self.old) (fault_count self.new) };

    /// How many bytes the object has.
    fn size(&mut self, volume: u32, object: u32) -> Result<u32, DriveRefusal>
        ensures size { IfOk result (λ n. (o : Objects) → gives self.old volume o → (object < length o) × (n ≡ length (get_or o object []))) }
        ensures missing { IsErrOf result NoObject → (o : Objects) → gives self.old volume o → length o ≤ object }
        ensures asked { IsAsked result }
        ensures same { (v : ℕ) → Alike (gives self.old v) (gives self.new v) }
        ensures volumes { KeepsVolumes (has self.old) (has self.new) (capacity_of self.old) (capacity_of self.new) (lasting self.old) (lasting self.new) }
        ensures cause { HasCause result (has self.old volume) (fault_count self.old) (fault_count self.new) };

    /// Puts the object's bytes from that place on into the buffer, as far as they fit, and tells how many it has put. At the object's end and past it
    /// that is 0.
    fn read(
        &mut self,
        volume: u32,
        object: u32,
        at: u32,
        buf: &mut [u8],
    ) -> Result<u32, DriveRefusal>
        ensures bytes { IfOk result (λ n. (o : Objects) → gives self.old volume o → (object < length o) × (take n buf.new ≡ read_from at (length buf.old) (get_or o object [])) × (n ≡ length (read_from at (length buf.old) (get_or o object [])))) }
        ensures count { IfOk result (λ n. n ≤ length buf.old) }
        ensures missing { IsErrOf result NoObject → (o : Objects) → gives self.old volume o → length o ≤ object }
        ensures asked { IsAsked result }
        ensures same { (v : ℕ) → Alike (gives self.old v) (gives self.new v) }
        ensures volumes { KeepsVolumes (has self.old) (has self.new) (capacity_of self.old) (capacity_of self.new) (lasting self.old) (lasting self.new) }
        ensures cause { HasCause result (has self.old volume) (fault_count self.old) (fault_count self.new) };

    /// Makes the volume's objects last.
    fn sync(&mut self, volume: u32) -> Result<(), DriveRefusal>
        ensures lasts { OnOk result ((o : Objects) → gives self.new volume o → length o ≤ lasting self.new volume) }
        ensures asked { IsAsked result }
        ensures volume { IsErrOf result NoObject → ⊥ }
        ensures same { (v : ℕ) → Alike (gives self.old v) (gives self.new v) }
        ensures volumes { KeepsVolumes (has self.old) (has self.new) (capacity_of self.old) (capacity_of self.new) (lasting self.old) (lasting self.new) }
        ensures cause { HasCause result (has self.old volume) (fault_count self.old) (fault_count self.new) };

    /// How many objects the volume has.
    fn objects(&mut self, volume: u32) -> Result<u32, DriveRefusal>
        ensures count { IfOk result (λ n. (o : Objects) → gives self.old volume o → n ≡ length o) }
        ensures asked { IsAsked result }
        ensures volume { IsErrOf result NoObject → ⊥ }
        ensures same { (v : ℕ) → Alike (gives self.old v) (gives self.new v) }
        ensures volumes { KeepsVolumes (has self.old) (has self.new) (capacity_of self.old) (capacity_of self.new) (lasting self.old) (lasting self.new) }
        ensures cause { HasCause result (has self.old volume) (fault_count self.old) (fault_count self.new) };

    /// A volume with objects is one that the drive has.
    ghost given_there: { (d : Self) (v : ℕ) (o : Objects) → gives d v o → has d v ≡ true };

    /// A volume has one list of objects.
    ghost one_content: { (d : Self) (v : ℕ) (o : Objects) → gives d v o → o ≡ content d v };

    /// A drive of a sure type never failed,
    ghost sure_counts: { sure ≡ true → (d : Self) → fault_count d ≡ 0 };

    /// and tells the objects of each volume.
    ghost sure_tells: { sure ≡ true → (d : Self) (v : ℕ) → has d v ≡ true → (o : Objects) × gives d v o };
}
